// What the soundness test asks of one message: with its sender, its addressee and the lock.
#![tactic(auto)]

ghost use Rattle.std.specs.Prelude.{◌≡◌, not, ◌&&◌, ltb};
ghost use Rattle.std.specs.Bool.{beq};
ghost use Rattle.records.specs.Agents.{is_child};
ghost use Rattle.records.specs.Locks.{held_for_mail};
ghost use Rattle.records.specs.Messages.{is_out, is_under_way, is_lost, travels_to};
ghost use Rattle.records.specs.Numbers.{same_site};
ghost use Rattle.records.specs.Places.{implies};

use records::{Agent, AgentNo, Lock, MailNo, Status};

// Sender and addressee are there, and the sender is up.
pub fn parties_fine(agents: u32, a: AgentNo, b: AgentNo, from: Agent) -> bool
    ensures { result ≡ (ltb a.0 agents && (ltb b.0 agents && not (is_child from.phase))) }
{
    a.0 < agents && b.0 < agents && !from.phase.is_child()
}

// An out message travels to its addressee's site, the lock is held for a message exactly while it is out or handed, and none is lost.
pub fn status_right(lock: Lock, m: MailNo, to: Agent, s: Status) -> bool
    ensures { result ≡ (implies (is_out s) (same_site (travels_to s) to.site) && (beq (held_for_mail lock m) (is_under_way s) && not (is_lost s))) }
{
    let held = lock == Lock::ForMail(m);
    match s {
        Status::Out(target) => held && target == to.site,
        Status::Handed => held,
        Status::Queued | Status::Closed => !held,
        Status::Lost => false,
    }
}
