// A script's room in memory, and what it comes to on an output: what the programs that run scripts share.
#![tactic(auto)]

ghost use Rattle.std.specs.Prelude.{suc, ◌≤◌, length, replicate, take, ◌≡◌, OnOk, OnErr};
ghost use Rattle.std.specs.Io.KnownBytes.{Appends};
ghost use Rattle.output.specs.Session.{most_output};
ghost use Rattle.script_io.specs.Printing.{AppendsFront};
ghost use Rattle.program.specs.Program.{most_input, output_of};

use output::MOST_OUTPUT;
use program::MOST_INPUT;
use script::run;
use std::io;
use std::io::{ErrorKind, Write};

// One byte more than a script may have, so that one that is too long is seen.
const INPUT_ROOM: usize = MOST_INPUT + 1;

// Makes the room that a script is read into.
pub fn input_room() -> [u8; INPUT_ROOM]
    ensures { (result ≡ replicate (suc most_input) 0) × (suc most_input ≡ length result) }
{
    [0; INPUT_ROOM]
}

// Makes room for the output of any script. It is a function of its own, beside the room for a script: where the array is written out, the
// check unfolds it, to no end.
fn output_room() -> [u8; MOST_OUTPUT]
    ensures { most_output ≡ length result }
{
    [0; MOST_OUTPUT]
}

// Puts the script's output at the front of a buffer that has room for any, and answers its length.
fn fill(script: &[u8], output: &mut [u8]) -> usize
    requires { most_output ≤ length output.old }
    ensures { (result ≤ length output.new) × (take result output.new ≡ output_of script.now) }
{
    run(script, output)
}

// Writes bytes to a writer, to the last one. Where a write fails or takes nothing, that is the error, and a front part was written. std's
// `write_all` tries an interrupted write again and says nothing of what an error leaves.
fn write_bytes<W: Write>(out: &mut W, bytes: &[u8]) -> io::Result<()>
    ensures ok { OnOk result (Appends (W.contents out.old) (W.contents out.new) bytes.now) }
    ensures err { OnErr result (AppendsFront (W.contents out.old) (W.contents out.new) bytes.now) }
{
    let mut rest = bytes;
    while !rest.is_empty() {
        let count = out.write(rest)?;
        if count == 0 {
            return Err(ErrorKind::WriteZero.into());
        }
        rest = &rest[count..];
    }
    Ok(())
}

// Writes the script's output to a writer, by way of a buffer that has room for any.
fn write_output<W: Write>(out: &mut W, script: &[u8], output: &mut [u8]) -> io::Result<()>
    requires { most_output ≤ length output.old }
    ensures ok { OnOk result (Appends (W.contents out.old) (W.contents out.new) (output_of script.now)) }
    ensures err { OnErr result (AppendsFront (W.contents out.old) (W.contents out.new) (output_of script.now)) }
{
    let length = fill(script, output);
    write_bytes(out, &output[..length])
}

// Writes the script's output to a writer: to the last byte, where it answers Ok, and else a front part of it.
pub fn print<W: Write>(out: &mut W, script: &[u8]) -> io::Result<()>
    ensures ok { OnOk result (Appends (W.contents out.old) (W.contents out.new) (output_of script.now)) }
    ensures err { OnErr result (AppendsFront (W.contents out.old) (W.contents out.new) (output_of script.now)) }
{
    let mut output = output_room();
    write_output(out, script, &mut output)
}

#[cfg(test)]
mod tests {
    use super::*;

    // A writer that takes at most seven bytes a time, and fails where its room is full.
    #[derive(Drop)]
    struct Breaking<'a> {
        room: &'a mut [u8],
    }

    impl Write for Breaking<'_> {
        fn write(&mut self, buf: &[u8]) -> io::Result<usize> {
            if self.room.is_empty() {
                return Err(ErrorKind::Interrupted.into());
            }
            let most = buf.len().min(7);
            self.room.write(&buf[..most])
        }

        fn flush(&mut self) -> io::Result<()> {
            Ok(())
        }
    }

    // What was written before a write failed is the front of the output, and the error comes out.
    #[test]
    fn keeps_what_was_written_before_an_error(rt: HostRuntime) {
        let mut held = [b'#'; 20];
        let done = print(&mut Breaking { room: &mut held }, b"sites=2\nspawn=0\n");
        let kind = done.err().map(|e| e.kind());
        assert_eq!(rt; kind, Some(ErrorKind::Interrupted));
        assert_eq!(rt; held, *b"line.1=0,0\nline.2=0,");
    }

    // A writer that takes nothing more is an error too, and not the end of the output.
    #[test]
    fn answers_a_writer_that_takes_nothing(rt: HostRuntime) {
        let mut held = [b'#'; 20];
        let done = print(&mut held.as_mut_slice(), b"sites=2\nspawn=0\n");
        let kind = done.err().map(|e| e.kind());
        assert_eq!(rt; kind, Some(ErrorKind::WriteZero));
        assert_eq!(rt; held, *b"line.1=0,0\nline.2=0,");
    }
}
