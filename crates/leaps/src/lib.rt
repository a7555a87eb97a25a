// The rules of a move under the lock: grant, leap and book. Each changes a table in place, and stands on every table, sound or not: a
// place past an array reads as its filling.
#![tactic(auto)]

ghost use Rattle.std.specs.Prelude.{◌≡◌, IfErr};
ghost use Rattle.records.specs.Codes.{IsRefusal};
ghost use Rattle.rules.specs.Answers.{reply_of};
ghost use Rattle.rules.specs.Steps.{grant_rule, leap_rule, book_rule};

use readers::agent_at;
use records::places::set_at;
use records::{AgentNo, Code, Lock, Phase};
use rules::{State, Taken};

// The lock is taken for the move of an asking agent. The map entry stays: the agent is still where it was.
#[tactic(auto, unfolding(rules::specs::Steps::grant_rule))]
pub fn grant_rule(t: &mut State, a: AgentNo) -> Result<Taken, Code>
    ensures replies { reply_of t.new result ≡ grant_rule t.old a }
    ensures refusal { IfErr result IsRefusal }
{
    let mut one = agent_at(t, a).ok_or(Code::NoAgent)?;
    let Phase::Asking(target) = one.phase else {
        return Err(Code::OutOfTurn);
    };
    if t.lock != Lock::Unheld {
        return Err(Code::LockHeld);
    }
    one.phase = Phase::Granted(target);
    set_at(&mut t.agent, a.0, one);
    t.lock = Lock::ForMove(a);
    Ok(Taken::Done(0))
}

// A granted agent goes to its target; the server learns of it at book.
#[tactic(auto, unfolding(rules::specs::Steps::leap_rule))]
pub fn leap_rule(t: &mut State, a: AgentNo) -> Result<Taken, Code>
    ensures replies { reply_of t.new result ≡ leap_rule t.old a }
    ensures refusal { IfErr result IsRefusal }
{
    let mut one = agent_at(t, a).ok_or(Code::NoAgent)?;
    let Phase::Granted(target) = one.phase else {
        return Err(Code::OutOfTurn);
    };
    one.site = target;
    one.phase = Phase::Landed;
    set_at(&mut t.agent, a.0, one);
    Ok(Taken::Done(0))
}

// The server learns where a landed agent is. With the map right again the lock is free.
#[tactic(auto, unfolding(rules::specs::Steps::book_rule))]
pub fn book_rule(t: &mut State, a: AgentNo) -> Result<Taken, Code>
    ensures replies { reply_of t.new result ≡ book_rule t.old a }
    ensures refusal { IfErr result IsRefusal }
{
    let mut one = agent_at(t, a).ok_or(Code::NoAgent)?;
    if one.phase != Phase::Landed {
        return Err(Code::OutOfTurn);
    }
    one.phase = Phase::Booked;
    one.map = Some(one.site);
    set_at(&mut t.agent, a.0, one);
    t.lock = Lock::Unheld;
    Ok(Taken::Done(0))
}
