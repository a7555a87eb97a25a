// Tables filled by steps, for the programs that run at the limits. What these functions promise is what the steps do. Each goes through
// steps of its own, so each is a loop of its own.
#![tactic(auto)]

use records::{AgentNo, MailNo};
use table::Table;

// Fills a table of one agent up to `count` agents, each made by agent 0 and free.
pub fn with_agents(first: Table, count: u32) -> Table {
    let mut t = first;
    for child in 1..count {
        let spawned = t.spawn(AgentNo(0)).table;
        let enrolled = spawned.enrol(AgentNo(child)).table;
        t = enrolled.greet(AgentNo(child)).table;
    }
    t
}

// Fills a full table of agents up to `count` messages, each closed: one from every agent in turn, to the next one.
pub fn with_messages(first: Table, count: u32) -> Table {
    let mut t = first;
    for m in 0..count {
        let from = m % Table::MOST_AGENTS;
        let to = (from + 1) % Table::MOST_AGENTS;
        let sent = t
            .send(AgentNo(from), m / Table::MOST_AGENTS + 1, AgentNo(to), m)
            .table;
        let out = sent.forward(MailNo(m)).table;
        let handed = out.hand(MailNo(m)).table;
        t = handed.close(MailNo(m)).table;
    }
    t
}

// Fills a table up to `count` messages of agent 0 to itself, queued.
pub fn with_own_messages(first: Table, count: u32) -> Table {
    let mut t = first;
    for m in 0..count {
        t = t.send(AgentNo(0), m + 1, AgentNo(0), m).table;
    }
    t
}
