// The lines of a text, one after the other.
ghost use Rattle.std.specs.Prelude.{◌≡◌};
ghost use Rattle.std.specs.Iterator.{item_count};
ghost use Rattle.grammar.specs.Lines.{lines_of};
ghost use Rattle.scanning.specs.Walking.{lines_left, Walks};

use crate::finding::{first_line, line_taken};

// What of a text is still to be walked.
#[derive(Drop)]
pub struct Lines<'a> {
    rest: &'a [u8],
}

// The lines of a text, from its first one on.
pub fn lines_in(text: &[u8]) -> Lines<'_>
    ensures lines { lines_left result ≡ lines_of text.now }
    ensures rest { result.rest.now ≡ text.now }
{
    Lines { rest: text }
}

impl<'a> Iterator for Lines<'a> {
    type Item = &'a [u8];

    ghost next_gives = { Walks };

    ghost remaining = { item_count lines_left };

    // The first line, which is walked then.
    fn next(&mut self) -> Option<&'a [u8]> {
        let walked = self.rest.is_empty();
        if walked {
            return None;
        }
        let line = first_line(self.rest);
        let left = &self.rest[line_taken(self.rest)..];
        self.rest = left;
        Some(line)
    }
}
