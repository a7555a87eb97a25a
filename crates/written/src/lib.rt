// The written table: what a writing into a lent buffer answers.
#![tactic(auto)]

ghost use Rattle.std.specs.Prelude.{◌≡◌};
ghost use Rattle.text.specs.Writing.{write_of};

use records::Code;
use rules::State;
use text::Written;
use whole::write_sound;

pub mod answers;
pub mod digits;
mod fields;
mod lines;
pub mod place;
mod rows;
mod whole;

// Writes the table's text at the buffer's front and answers its length. Refused where the table is not sound, and then where the text
// is longer than the buffer; a refused writing changes no byte.
pub fn write(t: State, buf: &mut [u8]) -> Written
    ensures { (result ≡ (write_of t buf.old).answer) × (buf.new ≡ (write_of t buf.old).buffer) }
{
    if !soundness::is_sound(&t) {
        return Written {
            code: Code::BadState,
            number: 0,
            length: 0,
        };
    }
    write_sound(&t, buf)
}
