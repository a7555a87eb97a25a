// The line that answers a script line.
ghost use Rattle.std.specs.Prelude.{[], ◌∷◌, ◌≤◌};
ghost use Rattle.text.specs.Decimal.{decimal, bytes};
ghost use Rattle.text.specs.Placing.{Put};
ghost use Rattle.text.specs.Text.{fields, row};

use crate::place::Pen;

// Puts line.K=CODE,NUMBER and byte 10 at the front of a buffer, as far as it has room, and answers how many bytes they are.
pub fn answer_line(buf: &mut [u8], k: u32, code: u32, number: u32) -> usize
    ensures { Put (row (bytes "line") k (fields (decimal code ∷ decimal number ∷ []))) buf.old buf.new 0 result × (result ≤ 43) }
{
    let mut pen = Pen { buf, at: 0 };
    pen.numbered(b"line.", k, b'=');
    pen.ended(code, b',');
    pen.ended(number, b'\n');
    pen.at
}
