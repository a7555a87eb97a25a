// The senders' numbers and the log.
ghost use Rattle.std.specs.Prelude.{◌≡◌, ◌≤◌};
ghost use Rattle.records.specs.Limits.{most_messages};
ghost use Rattle.rules.specs.Tests.{delivered, numbers_run, no_counts, log_runs, no_marks};

use records::Status;
use records::limits::{AGENT_ROOM, MESSAGE_ROOM};
use records::places::{get_or, set_at};
use rules::State;

// Each sender's numbers run 1, 2, 3 .. in the order of taking. The messages are read by index, which is quicker than with a test of the
// place, and the senders' counts are an array, since nothing lives on the heap.
pub(crate) fn numbers_run(t: &State) -> bool
    requires { t.now.messages ≤ most_messages }
    ensures { result ≡ numbers_run t.now.sender t.now.number t.now.messages 0 no_counts }
{
    let mut counts = [0u32; AGENT_ROOM];
    for i in 0..t.messages as usize {
        let from = t.sender[i];
        let due = get_or(&counts, from.0, 0) + 1;
        if t.number[i] != due {
            return false;
        }
        set_at(&mut counts, from.0, due);
    }
    true
}

// The marked messages are the handed and the closed ones. None is left out, so that this loop can run in wide registers; a chain over
// both arrays was slower.
fn delivered(messages: u32, status: &[Status; MESSAGE_ROOM], seen: &[bool; MESSAGE_ROOM]) -> bool
    ensures { result ≡ delivered messages status.now seen.now }
{
    let mut fine = true;
    for i in 0..MESSAGE_ROOM.min(messages as usize) {
        fine &= seen[i] == status[i].is_delivered();
    }
    fine
}

// The log holds each handed or closed message once, and nothing more. The messages seen are marked in an array, since nothing lives on
// the heap.
pub(crate) fn log_runs(t: &State) -> bool
    requires { t.now.handed ≤ most_messages }
    ensures { result ≡ log_runs t.now.messages t.now.status t.now.log t.now.handed 0 no_marks }
{
    let mut seen = [false; MESSAGE_ROOM];
    for entry in &t.log[..t.handed as usize] {
        let fresh = entry.0 < t.messages && !get_or(&seen, entry.0, false);
        if !fresh {
            return false;
        }
        set_at(&mut seen, entry.0, true);
    }
    delivered(t.messages, &t.status, &seen)
}
