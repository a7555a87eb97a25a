// Takes steps on an empty or on a full table, for the benchmark to time. Input: `e` or `f`, and a digit, for so many times 20,000 rounds of
// five steps. Output: the code of one more settle, which is out of turn.
#![tactic(auto)]

ghost use Rattle.std.specs.Prelude.{◌<◌};

use reads::read_full;
use records::{AgentNo, SiteNo};
use std::io;
use table::Table;

// One round: agent 0 moves to u and is free again.
fn round(t: Table, u: u32) -> Table {
    let asked = t.ask(AgentNo(0), SiteNo(u)).table;
    let granted = asked.grant(AgentNo(0)).table;
    let left = granted.leap(AgentNo(0)).table;
    let booked = left.book(AgentNo(0)).table;
    booked.settle(AgentNo(0)).table
}

// Takes n rounds, one after the other.
fn rounds(first: Table, n: u32) -> Table {
    let mut t = first;
    for i in 0..n {
        t = round(t, i % 3);
    }
    t
}

// The value of a digit's byte, and 0 for any other byte.
fn digit_of(b: u8) -> u32
    ensures { result < 10 }
{
    char::from(b).to_digit(10).unwrap_or(0)
}

// Takes as many rounds as standard input asks for.
fn main(rt: HostRuntime) -> io::Result<()> {
    let mut input = [0u8; 16];
    read_full(&mut rt.stdin(), &mut input)?;
    let mut t = Table::open(3).table;
    if input[0] == b'f' {
        let peopled = full_tables::with_agents(t, Table::MOST_AGENTS);
        t = full_tables::with_messages(peopled, Table::MOST_MESSAGES);
    }
    t = rounds(t, digit_of(input[1]) * 20000);
    let last = t.settle(AgentNo(0));
    println!(rt; "{}", u32::from(last.code))
}
