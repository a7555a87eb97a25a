// The rules: what the server's table holds, and what a step answers. There is no code here: the types stand below, the rules in specs/,
// what follows from them in proofs/.
#![tactic(auto)]

use records::limits::{AGENT_ROOM, MESSAGE_ROOM};
use records::{Agent, AgentNo, Code, Lock, MailNo, SiteNo, Status};

// The counts come first; past them each array holds the empty filling. A message's five fields stand at its number in five arrays, and
// not in one array of messages: a search reads two of them. Counts stand beside the arrays, since nothing lives on the heap.
#[derive(Clone, Copy)]
pub struct State {
    pub sites: u32,
    pub agents: u32,
    pub messages: u32,
    // the log's length
    pub handed: u32,
    pub lock: Lock,
    pub agent: [Agent; AGENT_ROOM],
    pub sender: [AgentNo; MESSAGE_ROOM],
    pub number: [u32; MESSAGE_ROOM],
    pub addressee: [AgentNo; MESSAGE_ROOM],
    pub value: [u32; MESSAGE_ROOM],
    pub status: [Status; MESSAGE_ROOM],
    // message numbers in the order of handing
    pub log: [MailNo; MESSAGE_ROOM],
}

// What every step hands back: the table as it now stands, a code, and a number that is 0 where the rules name none. The definition of
// every rule answers this record.
#[derive(Clone, Copy)]
pub struct Reply {
    pub state: State,
    pub code: Code,
    pub number: u32,
}

// What a step that is not refused has done: it was taken, with the number that its rule names, or its message was taken before.
#[derive(Clone, Copy)]
pub enum Taken {
    Done(u32),
    Repeat(MailNo),
}

// The twelve steps.
#[derive(Clone, Copy)]
pub enum Step {
    Spawn(AgentNo),
    Ask(AgentNo, SiteNo),
    // sender, sender's number, addressee, value
    Send(AgentNo, u32, AgentNo, u32),
    Enrol(AgentNo),
    Greet(AgentNo),
    Grant(AgentNo),
    Leap(AgentNo),
    Book(AgentNo),
    Settle(AgentNo),
    Forward(MailNo),
    Hand(MailNo),
    Close(MailNo),
}
