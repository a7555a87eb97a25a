// What is asked of a message's status.
ghost use Rattle.std.specs.Prelude.{◌≡◌};
ghost use Rattle.records.specs.Messages.{is_queued, is_delivered};

use crate::Status;

impl Status {
    // Tells whether a message of this status waits.
    pub fn is_queued(self) -> bool
        ensures { result ≡ is_queued self }
    {
        matches!(self, Status::Queued)
    }

    // Tells whether a message of this status stands in an inbox.
    pub fn is_delivered(self) -> bool
        ensures { result ≡ is_delivered self }
    {
        matches!(self, Status::Handed | Status::Closed)
    }
}
