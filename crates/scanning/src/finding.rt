// The line finder: the first line of a text, and where the next one begins.
ghost use Rattle.std.specs.Prelude.{length, ◌≡◌, ◌≤◌};
ghost use Rattle.grammar.specs.Finding.{line_length, first_line, line_taken};

// How many bytes stand before the first line end, or before the end of the text.
fn line_length(text: &[u8]) -> usize
    ensures { (result ≡ line_length text.now) × (result ≤ length text.now) }
{
    text.iter().position(|b| *b == b'\n').unwrap_or(text.len())
}

// The first line of a text, without its line end, as a part of the text.
pub fn first_line(text: &[u8]) -> &[u8]
    ensures { result.now ≡ first_line text.now }
{
    &text[..line_length(text)]
}

// How many bytes the first line takes, its line end among them where it has one: the next line begins there.
pub fn line_taken(text: &[u8]) -> usize
    ensures { result ≡ line_taken text.now }
{
    (line_length(text) + 1).min(text.len())
}
