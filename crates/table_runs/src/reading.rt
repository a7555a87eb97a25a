// What is read of a table, printed: an agent, a message, the first two entries of an inbox. There is no Display here: each value is printed
// in one place, in words of this program alone. What is read under each kind of number is another record, printed otherwise.
use records::{Agent, AgentNo, Item, MailNo, Message, Phase, SiteNo, Status};
use std::io;
use std::io::Write;
use table::Table;

// Prints a phase with what it names.
fn put_phase<W: Write>(out: &mut W, phase: Phase) -> io::Result<()> {
    match phase {
        Phase::Free => write!(out, ", free"),
        Phase::Spawning(child) => write!(out, ", spawning {}", child.0),
        Phase::Born(parent) => write!(out, ", born of {}", parent.0),
        Phase::Enrolled(parent) => write!(out, ", enrolled of {}", parent.0),
        Phase::Asking(target) => write!(out, ", asking for site {}", target.0),
        Phase::Granted(target) => write!(out, ", granted site {}", target.0),
        Phase::Landed => write!(out, ", landed"),
        Phase::Booked => write!(out, ", booked"),
    }
}

// Prints a map entry.
fn put_map<W: Write>(out: &mut W, map: Option<SiteNo>) -> io::Result<()> {
    match map {
        None => write!(out, ", unmapped"),
        Some(site) => write!(out, ", mapped to site {}", site.0),
    }
}

// Prints a status with what it names.
fn put_status<W: Write>(out: &mut W, status: Status) -> io::Result<()> {
    match status {
        Status::Queued => write!(out, ", queued"),
        Status::Out(site) => write!(out, ", out to site {}", site.0),
        Status::Handed => write!(out, ", handed"),
        Status::Closed => write!(out, ", closed"),
        Status::Lost => write!(out, ", lost"),
    }
}

// Prints an agent's record.
fn put_agent<W: Write>(out: &mut W, one: Agent) -> io::Result<()> {
    write!(out, ": at site {}", one.site.0)?;
    put_phase(out, one.phase)?;
    put_map(out, one.map)
}

// Prints a message's record.
fn put_message<W: Write>(out: &mut W, one: Message) -> io::Result<()> {
    write!(out, ": from agent {}, number {}", one.sender.0, one.number)?;
    write!(out, ", to agent {}, value {}", one.addressee.0, one.value)?;
    put_status(out, one.status)
}

// Prints an entry's record.
fn put_item<W: Write>(out: &mut W, one: Item) -> io::Result<()> {
    write!(
        out,
        " from agent {}, number {}, value {}",
        one.sender.0, one.number, one.value
    )
}

// Reads an agent and prints what was read.
pub(crate) fn show_agent<W: Write>(out: &mut W, t: &Table, a: AgentNo) -> io::Result<()> {
    match t.agent_at(a) {
        None => write!(out, ": none"),
        Some(one) => put_agent(out, one),
    }
}

// Reads a message and prints what was read.
pub(crate) fn show_message<W: Write>(out: &mut W, t: &Table, m: MailNo) -> io::Result<()> {
    match t.message_at(m) {
        None => write!(out, ": none"),
        Some(one) => put_message(out, one),
    }
}

// Reads the entry at a place of an inbox and prints what was read.
fn show_place<W: Write>(out: &mut W, t: &Table, a: AgentNo, place: u32) -> io::Result<()> {
    match t.inbox_at(a, place) {
        None => write!(out, " none"),
        Some(one) => put_item(out, one),
    }
}

// Reads the first two entries of an inbox and prints them.
pub(crate) fn show_inbox<W: Write>(out: &mut W, t: &Table, a: AgentNo) -> io::Result<()> {
    write!(out, ": first")?;
    show_place(out, t, a, 0)?;
    write!(out, "; second")?;
    show_place(out, t, a, 1)
}
