// Each agent, with the agent that its phase names, and with the lock.
ghost use Rattle.std.specs.Prelude.{◌≡◌};
ghost use Rattle.records.specs.Places.{all_below};
ghost use Rattle.rules.specs.Holding.{lock_of};
ghost use Rattle.rules.specs.Tests.{agent_fine};

use records::AgentNo;
use records::agents::empty_agent;
use records::places::get_or;
use rules::State;

// Agent i, with the one that its phase names.
#[tactic(auto, unfolding(rules::specs::Tests::agent_fine))]
fn fine_at(t: &State, i: u32) -> bool
    ensures { result ≡ agent_fine t.now.sites t.now.agents (lock_of t.now) t.now.agent i }
{
    let one = get_or(&t.agent, i, empty_agent());
    let other = get_or(&t.agent, one.phase.peer().0, empty_agent());
    agent_checks::agent_fine(t.sites, t.agents, t.lock, AgentNo(i), one, other)
}

// Each agent that is there.
pub(crate) fn each_fine(t: &State) -> bool
    ensures { result ≡ all_below t.now.agents (agent_fine t.now.sites t.now.agents (lock_of t.now) t.now.agent) }
{
    (0..t.agents).all(|i| fine_at(t, i))
}
