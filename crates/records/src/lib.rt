// The small records of the table: its three kinds of number, what an agent and a message can be, and the codes.
// The first variant of each enum is the one that the empty filling has.
#![tactic(auto)]

pub mod agents;
pub mod codes;
pub mod limits;
pub mod messages;
pub mod places;

// Agents are numbered from 0 in the order of their creation.
#[derive(Clone, Copy, PartialEq, Eq)]
pub struct AgentNo(pub u32);

// Sites are numbered from 0.
#[derive(Clone, Copy, PartialEq, Eq)]
pub struct SiteNo(pub u32);

// Messages are numbered from 0 in the order in which they were taken.
#[derive(Clone, Copy, PartialEq, Eq)]
pub struct MailNo(pub u32);

// Where an agent is in a creation or a move.
#[derive(Clone, Copy, PartialEq, Eq)]
pub enum Phase {
    Free,
    // with the child
    Spawning(AgentNo),
    // with the parent
    Born(AgentNo),
    // with the parent
    Enrolled(AgentNo),
    // with the target
    Asking(SiteNo),
    // with the target
    Granted(SiteNo),
    Landed,
    Booked,
}

#[derive(Clone, Copy, PartialEq, Eq)]
pub struct Agent {
    pub site: SiteNo,
    pub phase: Phase,
    // the server's map entry, if it has one
    pub map: Option<SiteNo>,
}

// How far a message has come.
#[derive(Clone, Copy, PartialEq, Eq)]
pub enum Status {
    Queued,
    // with the site it travels to
    Out(SiteNo),
    Handed,
    Closed,
    Lost,
}

// One message, to look at. The table keeps the five fields in five arrays.
#[derive(Clone, Copy, PartialEq, Eq)]
pub struct Message {
    pub sender: AgentNo,
    pub number: u32,
    pub addressee: AgentNo,
    pub value: u32,
    pub status: Status,
}

// Whether the lock is held, and for what. It is no Option of a holder, since both are asked in one match.
#[derive(Clone, Copy, PartialEq, Eq)]
pub enum Lock {
    Unheld,
    ForMove(AgentNo),
    ForMail(MailNo),
}

// One entry of an agent's inbox.
#[derive(Clone, Copy, PartialEq, Eq)]
pub struct Item {
    pub sender: AgentNo,
    pub number: u32,
    pub value: u32,
}

// What a step, an opening, a writing or a script line answers. Done and Repeat stand among the refusals, as in the one table of codes.
#[derive(Clone, Copy, PartialEq, Eq)]
pub enum Code {
    Done,
    Repeat,
    NoSite,
    NoAgent,
    NoMessage,
    Busy,
    NotUp,
    OutOfTurn,
    LockHeld,
    NotEnrolled,
    AgentsFull,
    MessagesFull,
    Changed,
    Gap,
    BadCount,
    NoRoom,
    BadLine,
    NotOpen,
    AlreadyOpen,
    BadState,
}
