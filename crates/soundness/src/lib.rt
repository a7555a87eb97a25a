// Whether a table is sound.
#![tactic(auto)]

mod agents;
mod book;
mod messages;
mod rooms;

ghost use Rattle.std.specs.Prelude.{◌≡◌};
ghost use Rattle.rules.specs.Holding.{lock_of};
ghost use Rattle.rules.specs.SoundTest.{sound_test};
ghost use Rattle.rules.specs.Tests.{counts_fine, lock_there};

use book::{log_runs, numbers_run};
use records::Lock;
use records::limits::{MOST_AGENTS, MOST_MESSAGES, MOST_SITES};
use rooms::rest_is_empty;
use rules::State;

// Tells whether the four counts are in their ranges.
#[tactic(auto, unfolding(rules::specs::Tests::counts_fine))]
fn counts_fine(t: &State) -> bool
    ensures { result ≡ counts_fine t.now.sites t.now.agents t.now.messages t.now.handed }
{
    1 <= t.sites
        && t.sites <= MOST_SITES
        && 1 <= t.agents
        && t.agents <= MOST_AGENTS
        && t.messages <= MOST_MESSAGES
        && t.handed <= MOST_MESSAGES
}

// The lock names only what is there.
fn lock_there(t: &State) -> bool
    ensures { result ≡ lock_there t.now.agents t.now.messages (lock_of t.now) }
{
    match t.lock {
        Lock::Unheld => true,
        Lock::ForMove(a) => a.0 < t.agents,
        Lock::ForMail(m) => m.0 < t.messages,
    }
}

// Tells whether the table is sound, in time linear in its arrays. The counts come first: messages and log are read up to them.
pub fn is_sound(t: &State) -> bool
    ensures { result ≡ sound_test t.now }
{
    if !counts_fine(t) {
        return false;
    }
    agents::each_fine(t)
        && rest_is_empty(&t.agent, t.agents)
        && lock_there(t)
        && messages::each_fine(t)
        && rest_is_empty(&t.sender, t.messages)
        && rest_is_empty(&t.addressee, t.messages)
        && rest_is_empty(&t.value, t.messages)
        && numbers_run(t)
        && rest_is_empty(&t.number, t.messages)
        && log_runs(t)
        && rest_is_empty(&t.status, t.messages)
        && rest_is_empty(&t.log, t.handed)
}
