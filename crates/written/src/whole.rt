// The whole table's text.
ghost use Rattle.std.specs.Prelude.{◌≡◌};
ghost use Rattle.text.specs.Text.{written};
ghost use Rattle.text.specs.Writing.{write_fitting};
ghost use Rattle.written.specs.Pens.{Penned};

use crate::place::Pen;
use records::Code;
use rules::State;
use text::Written;

impl Pen<'_> {
    // Puts the table's text.
    fn table(&mut self, t: &State)
        ensures { Penned (written t.now) self.old self.new }
    {
        self.counts(t);
        self.lock(t.lock);
        self.agents(t);
        self.messages(t);
        self.log(t);
    }
}

// A writing of a sound table. The text is measured by a pen with no room before a byte of the lent buffer is stored. A refusal is written
// out here and in `write`: a function for it would be longer than both.
pub(crate) fn write_sound(t: &State, buf: &mut [u8]) -> Written
    ensures { (result ≡ (write_fitting t.now buf.old).answer) × (buf.new ≡ (write_fitting t.now buf.old).buffer) }
{
    let mut no_room = [0; 0];
    let mut ruler = Pen {
        buf: &mut no_room,
        at: 0,
    };
    ruler.table(t);
    let length = ruler.at;
    if buf.len() < length {
        return Written {
            code: Code::NoRoom,
            number: 0,
            length: 0,
        };
    }
    let mut pen = Pen { buf, at: 0 };
    pen.table(t);
    Written {
        code: Code::Done,
        number: 0,
        length,
    }
}
