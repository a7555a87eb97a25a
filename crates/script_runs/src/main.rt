// Scripts that are wrong in one way or another, each printed under a heading with what it comes to.
#![tactic(auto)]

use script_io::{input_room, print};
use std::io;
use std::io::Write;

// Prints a script's output under a heading, which goes out in one write.
fn report<W: Write>(out: &mut W, heading: &str, script: &[u8]) -> io::Result<()> {
    out.write_all(heading.as_bytes())?;
    print(out, script)
}

// The longest script that still runs, and one byte more, which is the room for a script.
fn report_lengths<W: Write>(out: &mut W) -> io::Result<()> {
    let longest = [0u8; 65536];
    report(out, "-- 65536 bytes\n", &longest)?;
    let longer = input_room();
    report(out, "-- 65537 bytes\n", &longer)
}

// Where lines end.
fn report_line_ends<W: Write>(out: &mut W) -> io::Result<()> {
    report(out, "-- empty\n", b"")?;
    report(out, "-- one empty line\n", b"\n")?;
    report(out, "-- no last byte 10\n", b"sites=2\nspawn=0")?;
    report(out, "-- final byte 10\n", b"sites=2\nspawn=0\n")?;
    report(out, "-- empty line between\n", b"sites=2\n\nspawn=0\n")?;
    report(
        out,
        "-- carriage return\n",
        b"sites=2\r\nsites=2\nspawn=0\r\n",
    )
}

// Lines that are not in the grammar, among some that are.
fn report_bad_lines<W: Write>(out: &mut W) -> io::Result<()> {
    report(
        out,
        "-- blanks\n",
        b" sites=2\nsites =2\nsites= 2\nsites=2 \nsites=2\t\nsites=1\nask=0, 0\nask=0 ,0\n",
    )?;
    report(
        out,
        "-- signs\n",
        b"sites=+2\nsites=-2\nsites=2\nask=0,+1\nask=-0,1\nask=0,1\n",
    )?;
    report(
        out,
        "-- upper case\n",
        b"Sites=2\nSITES=2\nsites=2\nSpawn=0\nspawn=0\n",
    )?;
    report(
        out,
        "-- other bytes\n",
        b"sites=2\x00\n\x00sites=2\nsites=\xff2\n\xef\xbb\xbfsites=2\nsites\xc3\xa9=2\nsites=2\x80\nsites=2\n",
    )?;
    report(
        out,
        "-- digits\n",
        b"sites=00000000002\nsites=0000000002\nspawn=00000000000\nspawn=0000000000\nask=00,01\nsend=0,0000000001,1,4294967295\nsend=0,02,1,4294967296\nsend=0,2,1,9999999999\nspawn=4294967295\nspawn=4294967296\nhand=10000000000\n",
    )?;
    report(
        out,
        "-- commas\n",
        b"sites=2\nask=0\nask=0,\nask=,0\nask=0,0,\nask=0,,0\nask=0,0,0\nspawn=0,0\nspawn=,\nspawn=\nsend=0,1,0\nsend=0,1,0,5,\nsend=0,1,0,5,6\nsend=0;1;0;5\nsites=2,2\nsend=0,1,0,5\n",
    )?;
    report(
        out,
        "-- words\n",
        b"sites\nsites=\n=2\n=\nsite=2\nsitess=2\nsites==2\nopen=2\nspawn\nforwards=0\nsettl=0\nsites=2\nstate=none\nclosed=0\nhand=0x\n",
    )
}

// Openings and steps in the wrong order.
fn report_openings<W: Write>(out: &mut W) -> io::Result<()> {
    report(
        out,
        "-- steps before opening\n",
        b"spawn=0\nask=0,0\nsend=0,1,0,5\nenrol=0\ngreet=0\ngrant=0\nleap=0\nbook=0\nsettle=0\nforward=0\nhand=0\nclose=0\nspawn=x\n",
    )?;
    report(
        out,
        "-- opening after one that was Done\n",
        b"sites=1\nsites=1\nsites=0\nsites=17\nsites=x\nspawn=0\n",
    )?;
    report(
        out,
        "-- opening after one that was refused\n",
        b"sites=0\nspawn=0\nsites=17\nsites=4294967295\nspawn=0\nsites=16\nspawn=0\nsites=16\n",
    )?;
    report(out, "-- refused only\n", b"sites=0\nsites=17\n")
}

// Prints a table whose agent has landed and is not booked yet, with the lock held for its move.
fn report_landed<W: Write>(out: &mut W) -> io::Result<()> {
    report(
        out,
        "-- landed and not booked\n",
        b"sites=3\nask=0,2\ngrant=0\nleap=0\n",
    )
}

// Prints every script with what it comes to.
fn main(rt: HostRuntime) -> io::Result<()> {
    let mut out = rt.stdout();
    report_line_ends(&mut out)?;
    report_bad_lines(&mut out)?;
    report_openings(&mut out)?;
    report_landed(&mut out)?;
    report_lengths(&mut out)
}
