// Writes tables into buffers of no room, of one byte too few, of just enough and of more, and prints what comes of it: under a heading for
// each table and the room of each writing its code, its length and how many bytes past that length have changed.
#![tactic(auto)]

ghost use Rattle.std.specs.Prelude.{◌≤◌};

use std::io;
use std::io::Write;
use table::Table;

mod tables;

// The byte that every place of a buffer holds before a writing.
const MARK: u8 = b'#';

// Counts the bytes at or past a place that are not the mark.
fn changed(buf: &[u8], from: usize) -> usize {
    buf.iter().skip(from).filter(|b| **b != MARK).count()
}

// Writes a table into a buffer and prints what comes of it, with the text where it is to be shown.
fn report<W: Write>(out: &mut W, t: Table, buf: &mut [u8], shown: bool) -> io::Result<()> {
    let r = t.write(buf);
    writeln!(out, "code={}", u32::from(r.code))?;
    writeln!(out, "length={}", r.length)?;
    writeln!(out, "changed={}", changed(buf, r.length))?;
    match buf.get(..r.length) {
        Some(text) if shown => out.write_all(text),
        _ => Ok(()),
    }
}

// Writes a table into a buffer of so many bytes.
fn in_room<W: Write>(out: &mut W, t: Table, room: usize, shown: bool) -> io::Result<()>
    requires { room ≤ 40000 }
{
    writeln!(out, "room={room}")?;
    let mut buf = [MARK; 40000];
    report(out, t, &mut buf[..room], shown)
}

// Writes a table whose text has a known length into the four rooms, under a heading.
fn rooms<W: Write>(out: &mut W, heading: &str, t: Table, length: usize) -> io::Result<()>
    requires { (1 ≤ length) × (length ≤ 39000) }
{
    out.write_all(heading.as_bytes())?;
    in_room(out, t, 0, false)?;
    in_room(out, t, length - 1, false)?;
    in_room(out, t, length, true)?;
    in_room(out, t, length + 9, false)
}

// Writes each of the tables.
fn main(rt: HostRuntime) -> io::Result<()> {
    let mut out = rt.stdout();
    let fresh = Table::open(3);
    rooms(
        &mut out,
        "-- a fresh table of three sites\n",
        fresh.table,
        66,
    )?;
    rooms(&mut out, "-- session S\n", tables::session(), 123)?;
    rooms(
        &mut out,
        "-- the lock held for a move\n",
        tables::moving(),
        220,
    )?;
    rooms(
        &mut out,
        "-- the lock held for a message\n",
        tables::mailing(),
        125,
    )?;
    rooms(&mut out, "-- a full table\n", tables::full(), 28975)?;
    out.write_all(b"-- no table, which is not sound\n")?;
    in_room(&mut out, Table::none(), 0, false)?;
    in_room(&mut out, Table::none(), 9, false)
}
