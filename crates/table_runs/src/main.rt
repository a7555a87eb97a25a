// Runs the lines of standard input on the methods of a table, as a host calls them, and prints behind each line what it answers, as
// CODE,NUMBER. An opening line always opens anew. Beside the lines of a script there are `none`, which starts again from the table that
// stands where an answer has none; `agents=N`, `messages=N` and `own=N`, which fill the table up to N; and `agent=A`, `message=M` and
// `inbox=A`, which read it. An empty line, and one that begins with `#`, is a heading.
#![tactic(auto)]

use grammar::Line;
use lines::{last_number, read_line};
use reading::{show_agent, show_inbox, show_message};
use reads::read_full;
use records::{AgentNo, Code, MailNo};
use scanning::walking::lines_in;
use std::io;
use std::io::Write;
use table::{Answer, Table};

mod reading;

// A line that no script has.
#[derive(Clone, Copy)]
enum Own {
    Without,
    FillAgents(u32),
    FillMessages(u32),
    FillOwn(u32),
    ReadAgent(AgentNo),
    ReadMessage(MailNo),
    ReadInbox(AgentNo),
}

// Keeps the table that an answer hands back, and prints its code and its number.
fn tell<W: Write>(out: &mut W, t: &mut Table, r: Answer) -> io::Result<()> {
    *t = r.table;
    write!(out, ": {},{}", u32::from(r.code), r.number)
}

// Keeps a table that was filled, and prints that it was.
fn keep_filled<W: Write>(out: &mut W, t: &mut Table, full: Table) -> io::Result<()> {
    *t = full;
    write!(out, ": filled")
}

// The number that the whole line holds behind a word, if it begins with that word.
fn number_behind(word: &[u8], line: &[u8]) -> Option<u32> {
    last_number(line.strip_prefix(word)?)
}

// Takes apart a line that reads the table.
fn reading_line(line: &[u8]) -> Option<Own> {
    number_behind(b"agent=", line)
        .map(|a| Own::ReadAgent(AgentNo(a)))
        .or_else(|| number_behind(b"message=", line).map(|m| Own::ReadMessage(MailNo(m))))
        .or_else(|| number_behind(b"inbox=", line).map(|a| Own::ReadInbox(AgentNo(a))))
}

// Takes apart a line that fills the table.
fn filling_line(line: &[u8]) -> Option<Own> {
    number_behind(b"agents=", line)
        .map(Own::FillAgents)
        .or_else(|| number_behind(b"messages=", line).map(Own::FillMessages))
        .or_else(|| number_behind(b"own=", line).map(Own::FillOwn))
}

// Takes apart a line that no script has.
fn own_line(line: &[u8]) -> Option<Own> {
    if line == b"none".as_slice() {
        return Some(Own::Without);
    }
    filling_line(line).or_else(|| reading_line(line))
}

// Takes a line of this program's own. Writer and table are two loans, and each function here names which of them it changes.
fn take_own<W: Write>(out: &mut W, t: &mut Table, own: Own) -> io::Result<()> {
    match own {
        Own::Without => {
            *t = Table::none();
            write!(out, ": no table")
        }
        Own::FillAgents(n) => keep_filled(out, t, full_tables::with_agents(*t, n)),
        Own::FillMessages(n) => keep_filled(out, t, full_tables::with_messages(*t, n)),
        Own::FillOwn(n) => keep_filled(out, t, full_tables::with_own_messages(*t, n)),
        Own::ReadAgent(a) => show_agent(out, t, a),
        Own::ReadMessage(m) => show_message(out, t, m),
        Own::ReadInbox(a) => show_inbox(out, t, a),
    }
}

// Takes a line that is no heading.
fn take_line<W: Write>(out: &mut W, t: &mut Table, line: &[u8]) -> io::Result<()> {
    match read_line(line) {
        Line::Opening(sites) => tell(out, t, Table::open(sites)),
        Line::Take(step) => tell(out, t, t.step(step)),
        Line::Bad => match own_line(line) {
            Some(own) => take_own(out, t, own),
            // A write for each part, as an answer has.
            None => write!(out, ": {},{}", u32::from(Code::BadLine), 0),
        },
    }
}

// Tells whether a line is a heading.
fn is_heading(line: &[u8]) -> bool {
    matches!(line.first(), None | Some(b'#'))
}

// Prints a line with what it comes to.
fn show_line<W: Write>(out: &mut W, t: &mut Table, line: &[u8]) -> io::Result<()> {
    out.write_all(line)?;
    if !is_heading(line) {
        take_line(out, t, line)?;
    }
    writeln!(out)
}

// Shows every line of the input, one after the other.
fn show_lines<W: Write>(out: &mut W, input: &[u8]) -> io::Result<()> {
    let mut t = Table::none();
    for line in lines_in(input) {
        show_line(out, &mut t, line)?;
    }
    Ok(())
}

// Shows the lines of standard input.
fn main(rt: HostRuntime) -> io::Result<()> {
    let mut input = [0u8; 65536];
    let count = read_full(&mut rt.stdin(), &mut input)?;
    show_lines(&mut rt.stdout(), &input[..count])
}
