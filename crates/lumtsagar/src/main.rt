// Reads a script from standard input and prints what it comes to.
#![tactic(auto)]

use reads::read_full;
use script_io::{input_room, print};
use std::io;

// Prints the output of the script on standard input.
fn main(rt: HostRuntime) -> io::Result<()> {
    let mut input = input_room();
    let count = read_full(&mut rt.stdin(), &mut input)?;
    print(&mut rt.stdout(), &input[..count])
}
