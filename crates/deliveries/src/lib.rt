// The rules of a delivery: forward, hand, close. Each changes a table in place, and stands on every table, sound or not: a place past
// an array reads as its filling.
#![tactic(auto)]

ghost use Rattle.std.specs.Prelude.{◌≡◌, ◌≤◌, IfErr};
ghost use Rattle.records.specs.Codes.{IsRefusal};
ghost use Rattle.records.specs.Limits.{most_messages};
ghost use Rattle.rules.specs.Answers.{reply_of};
ghost use Rattle.rules.specs.Steps.{forward_rule, hand_rule, close_rule};

use readers::message_at;
use records::agents::empty_agent;
use records::places::{get_or, set_at};
use records::{Code, Lock, MailNo, Status};
use rules::{State, Taken};

// A queued message goes out to its addressee's site. The lock stays held for it until it is closed, so that its addressee cannot leap
// away from it.
#[tactic(auto, unfolding(rules::specs::Steps::forward_rule))]
pub fn forward_rule(t: &mut State, m: MailNo) -> Result<Taken, Code>
    ensures replies { reply_of t.new result ≡ forward_rule t.old m }
    ensures refusal { IfErr result IsRefusal }
{
    let one = message_at(t, m).ok_or(Code::NoMessage)?;
    if one.status != Status::Queued {
        return Err(Code::OutOfTurn);
    }
    if t.lock != Lock::Unheld {
        return Err(Code::LockHeld);
    }
    let Some(site) = get_or(&t.agent, one.addressee.0, empty_agent()).map else {
        return Err(Code::NotEnrolled);
    };
    set_at(&mut t.status, m.0, Status::Out(site));
    t.lock = Lock::ForMail(m);
    Ok(Taken::Done(0))
}

// A message that finds its addressee at the site it travelled to joins the log. One that does not is lost, and the lock stays as
// it is; no sound table comes to that. Nothing is said of a log that is longer than its array: it may be too long to count on.
#[tactic(auto, unfolding(rules::specs::Steps::hand_rule))]
pub fn hand_rule(t: &mut State, m: MailNo) -> Result<Taken, Code>
    ensures replies { t.old.handed ≤ most_messages → reply_of t.new result ≡ hand_rule t.old m }
    ensures refusal { IfErr result IsRefusal }
{
    let one = message_at(t, m).ok_or(Code::NoMessage)?;
    let Status::Out(site) = one.status else {
        return Err(Code::OutOfTurn);
    };
    if site != get_or(&t.agent, one.addressee.0, empty_agent()).site {
        set_at(&mut t.status, m.0, Status::Lost);
        return Ok(Taken::Done(0));
    }
    set_at(&mut t.status, m.0, Status::Handed);
    let handed = t.handed;
    set_at(&mut t.log, handed, m);
    t.handed = handed.saturating_add(1);
    Ok(Taken::Done(0))
}

// A handed message is over, and the lock is free for the next.
#[tactic(auto, unfolding(rules::specs::Steps::close_rule))]
pub fn close_rule(t: &mut State, m: MailNo) -> Result<Taken, Code>
    ensures replies { reply_of t.new result ≡ close_rule t.old m }
    ensures refusal { IfErr result IsRefusal }
{
    let one = message_at(t, m).ok_or(Code::NoMessage)?;
    if one.status != Status::Handed {
        return Err(Code::OutOfTurn);
    }
    set_at(&mut t.status, m.0, Status::Closed);
    t.lock = Lock::Unheld;
    Ok(Taken::Done(0))
}
