// Numbers in a script: 1 to 10 digits, leading zeros among them, at most 4,294,967,295.
ghost use Rattle.std.specs.Prelude.{length, ◌≡◌, ◌≤◌};
ghost use Rattle.grammar.specs.Grammar.{digit_run, value_from, numeral_of};

use grammar::Numeral;

const MOST_DIGITS: usize = 10;

// How many digits a text begins with.
fn digit_run(text: &[u8]) -> usize
    ensures { (result ≡ digit_run text.now) × (result ≤ length text.now) }
{
    text.iter().take_while(|b| b.is_ascii_digit()).count()
}

// The value of bytes as digits. No ten bytes have a value that is too large for 64 bits.
fn value_of(digits: &[u8]) -> u64
    requires { length digits.now ≤ 10 }
    ensures { result ≡ value_from 0 (length digits.now) digits.now }
{
    let mut value: u64 = 0;
    for b in digits {
        value = value * 10 + u64::from(b.saturating_sub(b'0'));
    }
    value
}

// The number at the front of a text.
pub fn read_number(text: &[u8]) -> Option<Numeral>
    ensures { result ≡ numeral_of text.now }
{
    let taken = digit_run(text);
    if !(1..=MOST_DIGITS).contains(&taken) {
        return None;
    }
    let value = u32::try_from(value_of(&text[..taken])).ok()?;
    Some(Numeral { value, taken })
}
