// Numbers as decimal digits.
ghost use Rattle.text.specs.Decimal.{decimal};
ghost use Rattle.text.specs.Placing.{Put};
ghost use Rattle.written.specs.Pens.{Penned};

use crate::place::Pen;

impl Pen<'_> {
    // Puts a number's digits.
    pub(crate) fn number(&mut self, n: u32)
        ensures { Penned (decimal n) self.old self.new }
    {
        let mut room = [0; 10];
        let count = digits(n, &mut room);
        self.word(&room[..count]);
    }
}

// Puts the digits of a number at the front of ten bytes, with no leading zero, and answers how many they are. It calls itself as `decimal`
// does, one remainder a digit.
pub fn digits(n: u32, out: &mut [u8; 10]) -> usize
    ensures { Put (decimal n) out.old out.new 0 result }
{
    if n < 10 {
        out[0] = b'0' + n as u8;
        return 1;
    }
    let tens = digits(n / 10, out);
    out[tens] = b'0' + (n % 10) as u8;
    tens + 1
}
