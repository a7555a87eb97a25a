// Reading into a lent buffer: how the programs take in standard input.
#![tactic(auto)]

ghost use Rattle.std.specs.Prelude.{◌<◌, ◌≤◌, length, take, IfOk, OnErr};
ghost use Rattle.std.specs.Io.KnownBytes.{Consumes, IsAtEnd};
ghost use Rattle.reads.specs.Reading.{FillsFront};

use std::io;
use std::io::Read;

// Reads until the buffer is full or the input ends, and answers how many bytes it put at the front of the buffer. A read that fails, an
// interrupted one among them, ends it with that error; what was read before it then stands at the buffer's front. std's `read_exact` and
// `read_to_end` try an interrupted read again, and the first says nothing of what an error leaves; so the loop over `read` stands here.
pub fn read_full<R: Read>(input: &mut R, buf: &mut [u8]) -> io::Result<usize>
    ensures within { IfOk result (λ n. n ≤ length buf.new) }
    ensures bytes { IfOk result (λ n. Consumes (R.remaining input.old) (R.remaining input.new) (take n buf.new)) }
    ensures end { IfOk result (λ n. n < length buf.new → IsAtEnd (R.remaining input.new)) }
    ensures err { OnErr result (FillsFront (R.remaining input.old) (R.remaining input.new) buf.new) }
{
    let mut done = 0;
    while done < buf.len() {
        let count = input.read(&mut buf[done..])?;
        if count == 0 {
            return Ok(done);
        }
        done += count;
    }
    Ok(done)
}

#[cfg(test)]
mod tests {
    use super::*;
    use std::io::ErrorKind;

    // A reader that gives at most three bytes a time, and fails where all are given.
    #[derive(Drop)]
    struct Breaking<'a> {
        left: &'a [u8],
    }

    impl Read for Breaking<'_> {
        fn read(&mut self, buf: &mut [u8]) -> io::Result<usize> {
            if self.left.is_empty() {
                return Err(ErrorKind::Interrupted.into());
            }
            let most = buf.len().min(3);
            self.left.read(&mut buf[..most])
        }
    }

    // What was read before a read failed stands, and nothing past it has changed.
    #[test]
    fn keeps_what_was_read_before_an_error(rt: HostRuntime) {
        let mut input = Breaking { left: b"sites=2" };
        let mut buf = [b'#'; 10];
        let kind = read_full(&mut input, &mut buf).err().map(|e| e.kind());
        assert_eq!(rt; kind, Some(ErrorKind::Interrupted));
        assert_eq!(rt; buf, *b"sites=2###");
    }

    // A buffer that is full asks for no further read, so that one which would fail is not met.
    #[test]
    fn stops_where_the_buffer_is_full(rt: HostRuntime) {
        let mut input = Breaking { left: b"sites=2" };
        let mut buf = [b'#'; 7];
        assert_eq!(rt; read_full(&mut input, &mut buf).ok(), Some(7));
        assert_eq!(rt; buf, *b"sites=2");
    }
}
