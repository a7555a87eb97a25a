// The tables that are written, put together field by field; no two have the same fields set.
ghost use Rattle.std.specs.Prelude.{◌<◌};

use records::limits::{MESSAGE_ROOM, MOST_AGENTS, MOST_MESSAGES, MOST_SITES};
use records::{Agent, AgentNo, Lock, MailNo, Phase, SiteNo, Status};
use rules::State;
use std::array;
use table::Table;

// The last number of each kind.
const LAST_SITE: u32 = MOST_SITES - 1;

const LAST_AGENT: u32 = MOST_AGENTS - 1;

const LAST_MESSAGE: u32 = MOST_MESSAGES - 1;

// Makes an agent's record.
fn agent(site: u32, phase: Phase, map: Option<SiteNo>) -> Agent {
    Agent {
        site: SiteNo(site),
        phase,
        map,
    }
}

// Gives the table that session S ends in.
pub(crate) fn session() -> Table {
    let mut t = Table::none().state;
    t.sites = 3;
    t.agents = 2;
    t.messages = 1;
    t.handed = 1;
    t.agent[0] = agent(0, Phase::Free, Some(SiteNo(0)));
    t.agent[1] = agent(2, Phase::Booked, Some(SiteNo(2)));
    t.number[0] = 1;
    t.addressee[0] = AgentNo(1);
    t.value[0] = 77;
    t.status[0] = Status::Closed;
    Table { state: t }
}

// Gives a table with the lock held for a move, a child not enrolled yet, and a message that waits for it.
pub(crate) fn moving() -> Table {
    let mut t = Table::none().state;
    t.sites = 16;
    t.agents = 5;
    t.messages = 2;
    t.lock = Lock::ForMove(AgentNo(3));
    t.agent[0] = agent(4, Phase::Spawning(AgentNo(1)), Some(SiteNo(4)));
    t.agent[1] = agent(4, Phase::Born(AgentNo(0)), None);
    t.agent[2] = agent(10, Phase::Asking(SiteNo(15)), Some(SiteNo(10)));
    t.agent[3] = agent(9, Phase::Granted(SiteNo(0)), Some(SiteNo(9)));
    t.agent[4] = agent(7, Phase::Free, Some(SiteNo(7)));
    t.sender[0] = AgentNo(2);
    t.sender[1] = AgentNo(0);
    t.number[0] = 1;
    t.number[1] = 1;
    t.addressee[0] = AgentNo(1);
    t.addressee[1] = AgentNo(3);
    t.value[0] = 1000000000;
    t.value[1] = 0;
    Table { state: t }
}

// Gives a table with the lock held for a message on its way, to a child that is enrolled.
pub(crate) fn mailing() -> Table {
    let mut t = Table::none().state;
    t.sites = 12;
    t.agents = 2;
    t.messages = 1;
    t.lock = Lock::ForMail(MailNo(0));
    t.agent[0] = agent(11, Phase::Spawning(AgentNo(1)), Some(SiteNo(11)));
    t.agent[1] = agent(11, Phase::Enrolled(AgentNo(0)), Some(SiteNo(11)));
    t.number[0] = 1;
    t.addressee[0] = AgentNo(1);
    t.value[0] = 9;
    t.status[0] = Status::Out(SiteNo(11));
    Table { state: t }
}

// Makes an agent of thirty-two parents, each right before its enrolled child, all at the last site.
fn relative(a: u32) -> Agent
    requires { a < 64 }
{
    let phase = if a % 2 == 0 {
        Phase::Spawning(AgentNo(a + 1))
    } else {
        Phase::Enrolled(AgentNo(a - 1))
    };
    agent(LAST_SITE, phase, Some(SiteNo(LAST_SITE)))
}

// Gives a table of as many agents and messages as there can be, with the largest values; the last message is handed and not closed.
pub(crate) fn full() -> Table {
    let mut status = [Status::Closed; MESSAGE_ROOM];
    status[MESSAGE_ROOM - 1] = Status::Handed;
    let state = State {
        sites: MOST_SITES,
        agents: MOST_AGENTS,
        messages: MOST_MESSAGES,
        handed: MOST_MESSAGES,
        lock: Lock::ForMail(MailNo(LAST_MESSAGE)),
        agent: array::from_fn(|i| relative(i as u32)),
        sender: [AgentNo(LAST_AGENT - 1); MESSAGE_ROOM],
        // from 1
        number: array::from_fn(|i| i as u32 + 1),
        addressee: [AgentNo(LAST_AGENT); MESSAGE_ROOM],
        value: [u32::MAX; MESSAGE_ROOM],
        status,
        // each message once, the last one first
        log: array::from_fn(|i| MailNo(LAST_MESSAGE - i as u32)),
    };
    Table { state }
}
