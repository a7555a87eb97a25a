// The number of each code.
ghost use Rattle.std.specs.Prelude.{◌≡◌};
ghost use Rattle.records.specs.Codes.{code_number};

use crate::Code;

// The number that the rules have for a code.
impl From<Code> for u32 {
    ghost from_gives = { λ c n. n ≡ code_number c };

    // Gives the number of the code c.
    fn from(c: Code) -> u32 {
        match c {
            Code::Done => 0,
            Code::Repeat => 1,
            Code::NoSite => 10,
            Code::NoAgent => 11,
            Code::NoMessage => 12,
            Code::Busy => 13,
            Code::NotUp => 14,
            Code::OutOfTurn => 15,
            Code::LockHeld => 16,
            Code::NotEnrolled => 17,
            Code::AgentsFull => 18,
            Code::MessagesFull => 19,
            Code::Changed => 20,
            Code::Gap => 21,
            Code::BadCount => 22,
            Code::NoRoom => 23,
            Code::BadLine => 24,
            Code::NotOpen => 25,
            Code::AlreadyOpen => 26,
            Code::BadState => 27,
        }
    }
}
