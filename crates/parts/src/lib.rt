// What opening and steps answer with: the table that stands for none, an opened one, and what was done to a table as a reply.
#![tactic(auto)]

ghost use Rattle.std.specs.Prelude.{◌≡◌};
ghost use Rattle.rules.specs.Answers.{reply_of};
ghost use Rattle.rules.specs.Holding.{no_state};
ghost use Rattle.rules.specs.Steps.{open_of};

use records::limits::{AGENT_ROOM, MESSAGE_ROOM, MOST_SITES};
use records::{Agent, AgentNo, Code, Lock, MailNo, Phase, SiteNo, Status};
use rules::{Reply, State, Taken};

// The table that stands where an answer has none: every count 0, the lock free, all room empty. The empty agent is written out: an array
// of what a function answers leaves the proof open.
pub fn none() -> State
    ensures { result ≡ no_state }
{
    State {
        sites: 0,
        agents: 0,
        messages: 0,
        handed: 0,
        lock: Lock::Unheld,
        agent: [Agent {
            site: SiteNo(0),
            phase: Phase::Free,
            map: None,
        }; AGENT_ROOM],
        sender: [AgentNo(0); MESSAGE_ROOM],
        number: [0; MESSAGE_ROOM],
        addressee: [AgentNo(0); MESSAGE_ROOM],
        value: [0; MESSAGE_ROOM],
        status: [Status::Queued; MESSAGE_ROOM],
        log: [MailNo(0); MESSAGE_ROOM],
    }
}

// A table of so many sites with agent 0 free at site 0, mapped there; refused where the count is 0 or above 16.
#[tactic(auto, unfolding(rules::specs::Steps::open_of))]
pub fn opening(sites: u32) -> Reply
    ensures { result ≡ open_of sites }
{
    let mut t = none();
    if sites == 0 || sites > MOST_SITES {
        return reply(t, Err(Code::BadCount));
    }
    t.sites = sites;
    t.agents = 1;
    t.agent[0].map = Some(SiteNo(0));
    reply(t, Ok(Taken::Done(0)))
}

// What was done to a table in place, as a reply that hands the table back.
pub fn reply(state: State, done: Result<Taken, Code>) -> Reply
    ensures { result ≡ reply_of state done }
{
    let (code, number) = match done {
        Ok(Taken::Done(number)) => (Code::Done, number),
        Ok(Taken::Repeat(m)) => (Code::Repeat, m.0),
        Err(code) => (code, 0),
    };
    Reply {
        state,
        code,
        number,
    }
}
