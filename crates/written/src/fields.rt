// Numbers in a line, with what stands beside them.
ghost use Rattle.std.specs.Prelude.{◌++◌};
ghost use Rattle.text.specs.Rows.{ended};
ghost use Rattle.written.specs.Pens.{Penned};

use crate::place::Pen;

impl Pen<'_> {
    // Puts a number and the byte after it.
    pub(crate) fn ended(&mut self, n: u32, after: u8)
        ensures { Penned (ended n after) self.old self.new }
    {
        self.number(n);
        self.word(&[after]);
    }

    // Puts a word, a number and the byte after it.
    pub(crate) fn numbered(&mut self, word: &[u8], n: u32, after: u8)
        ensures { Penned (word.now ++ ended n after) self.old self.new }
    {
        self.word(word);
        self.ended(n, after);
    }
}
