// The room past a count holds the empty filling. The test goes through all of the room: a loop that is not left early can run in wide
// registers.
ghost use Rattle.std.specs.Prelude.{◌≡◌, Bool, drop, eqb};
ghost use Rattle.records.specs.Agents.{is_empty_agent};
ghost use Rattle.records.specs.Messages.{is_queued};
ghost use Rattle.records.specs.Places.{all_of};

use records::{Agent, AgentNo, MailNo, Status};

// What an array of the table holds, and its empty filling.
pub(crate) trait Filled: Copy {
    ghost is_empty: { Self → Bool };

    // Tells whether this is the empty filling.
    fn is_empty(self) -> bool
        ensures { result ≡ is_empty self };
}

impl Filled for Agent {
    ghost is_empty = { is_empty_agent };

    fn is_empty(self) -> bool {
        agent_checks::is_empty_agent(self)
    }
}

impl Filled for AgentNo {
    ghost is_empty = { λ a. eqb a.0 0 };

    fn is_empty(self) -> bool {
        self == AgentNo(0)
    }
}

impl Filled for MailNo {
    ghost is_empty = { λ m. eqb m.0 0 };

    fn is_empty(self) -> bool {
        self == MailNo(0)
    }
}

impl Filled for u32 {
    ghost is_empty = { λ x. eqb x 0 };

    fn is_empty(self) -> bool {
        self == 0
    }
}

impl Filled for Status {
    ghost is_empty = { is_queued };

    fn is_empty(self) -> bool {
        self.is_queued()
    }
}

// Tells whether xs holds the empty filling from a place on.
pub(crate) fn rest_is_empty<T: Filled>(xs: &[T], from: u32) -> bool
    ensures { result ≡ all_of T.is_empty (drop from xs.now) }
{
    match xs.get(from as usize..) {
        Some(rest) => rest.iter().fold(true, |empty, x| empty & x.is_empty()),
        None => true,
    }
}
