// Each message, with its sender, its addressee and the lock.
ghost use Rattle.std.specs.Prelude.{◌≡◌, ◌≤◌, ◌<◌};
ghost use Rattle.records.specs.Limits.{most_messages};
ghost use Rattle.records.specs.Places.{all_below};
ghost use Rattle.rules.specs.Holding.{lock_of};
ghost use Rattle.rules.specs.Tests.{message_fine};

use message_checks::{parties_fine, status_right};
use records::MailNo;
use records::agents::empty_agent;
use records::places::get_or;
use rules::State;

// Message i, with its sender and its addressee. It is read by index, which is quicker than with a test of the place.
#[tactic(auto, unfolding(rules::specs::Tests::message_fine))]
fn fine_at(t: &State, i: u32) -> bool
    requires { i < most_messages }
    ensures { result ≡ message_fine t.now.agents (lock_of t.now) t.now.agent t.now.sender t.now.addressee t.now.status i }
{
    let at = i as usize;
    let a = t.sender[at];
    let b = t.addressee[at];
    let status = t.status[at];
    let from = get_or(&t.agent, a.0, empty_agent());
    let to = get_or(&t.agent, b.0, empty_agent());
    parties_fine(t.agents, a, b, from) && status_right(t.lock, MailNo(i), to, status)
}

// Each message that is there.
pub(crate) fn each_fine(t: &State) -> bool
    requires { t.now.messages ≤ most_messages }
    ensures { result ≡ all_below t.now.messages (message_fine t.now.agents (lock_of t.now) t.now.agent t.now.sender t.now.addressee t.now.status) }
{
    (0..t.messages).all(|i| fine_at(t, i))
}
