// A pen puts bytes into a lent buffer, each text where the one before it ended. A byte past the buffer's end is left out, so that a pen
// that is given no room measures its texts.
ghost use Rattle.text.specs.Placing.{PutWithin};
ghost use Rattle.written.specs.Pens.{Penned};

#[derive(Drop)]
pub(crate) struct Pen<'a> {
    pub(crate) buf: &'a mut [u8],
    // where the next text begins; it stops at the largest number, where no buffer has a byte
    pub(crate) at: usize,
}

impl Pen<'_> {
    // Puts the bytes of a word.
    pub(crate) fn word(&mut self, word: &[u8])
        ensures { Penned word.now self.old self.new }
    {
        if self.at < self.buf.len() {
            let fits = word.len().min(self.buf.len() - self.at);
            self.buf[self.at..self.at + fits].copy_from_slice(&word[..fits]);
        }
        self.at = self.at.saturating_add(word.len());
    }
}

// A text from any place at all. From one past the buffer's end nothing is put, and that place is answered as it is.
pub fn put_text(buf: &mut [u8], at: usize, text: &[u8]) -> usize
    ensures { PutWithin text.now buf.old buf.new at result }
{
    if buf.len() < at {
        return at;
    }
    let mut pen = Pen { buf, at };
    pen.word(text);
    pen.at
}
