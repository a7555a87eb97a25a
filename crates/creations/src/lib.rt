// The rules of a creation: spawn, enrol, greet. Each changes a table in place, and stands on every table, sound or not: a place past
// an array reads as its filling.
#![tactic(auto)]

ghost use Rattle.std.specs.Prelude.{◌≡◌, IfErr};
ghost use Rattle.records.specs.Codes.{IsRefusal};
ghost use Rattle.rules.specs.Answers.{reply_of};
ghost use Rattle.rules.specs.Steps.{spawn_rule, enrol_rule, greet_rule};

use readers::agent_at;
use records::agents::{born_of, empty_agent};
use records::limits::MOST_AGENTS;
use records::places::{get_or, set_at};
use records::{AgentNo, Code, Lock, Phase};
use rules::{State, Taken};

// A new agent at the site of a, which is then spawning. The number is the child's.
#[tactic(auto, unfolding(rules::specs::Steps::spawn_rule))]
pub fn spawn_rule(t: &mut State, a: AgentNo) -> Result<Taken, Code>
    ensures replies { reply_of t.new result ≡ spawn_rule t.old a }
    ensures refusal { IfErr result IsRefusal }
{
    let mut one = agent_at(t, a).ok_or(Code::NoAgent)?;
    if !one.phase.is_free() {
        return Err(Code::Busy);
    }
    if t.agents >= MOST_AGENTS {
        return Err(Code::AgentsFull);
    }
    let child = AgentNo(t.agents);
    one.phase = Phase::Spawning(child);
    set_at(&mut t.agent, a.0, one);
    set_at(&mut t.agent, child.0, born_of(a, one.site));
    t.agents += 1;
    Ok(Taken::Done(child.0))
}

// The server learns of a born agent. The parent stays as it is: it is free only once its child was greeted.
#[tactic(auto, unfolding(rules::specs::Steps::enrol_rule))]
pub fn enrol_rule(t: &mut State, b: AgentNo) -> Result<Taken, Code>
    ensures replies { reply_of t.new result ≡ enrol_rule t.old b }
    ensures refusal { IfErr result IsRefusal }
{
    let mut one = agent_at(t, b).ok_or(Code::NoAgent)?;
    let Phase::Born(parent) = one.phase else {
        return Err(Code::OutOfTurn);
    };
    if t.lock != Lock::Unheld {
        return Err(Code::LockHeld);
    }
    one.phase = Phase::Enrolled(parent);
    one.map = Some(one.site);
    set_at(&mut t.agent, b.0, one);
    Ok(Taken::Done(0))
}

// An enrolled agent and its parent become free together.
#[tactic(auto, unfolding(rules::specs::Steps::greet_rule))]
pub fn greet_rule(t: &mut State, b: AgentNo) -> Result<Taken, Code>
    ensures replies { reply_of t.new result ≡ greet_rule t.old b }
    ensures refusal { IfErr result IsRefusal }
{
    let mut child = agent_at(t, b).ok_or(Code::NoAgent)?;
    let Phase::Enrolled(a) = child.phase else {
        return Err(Code::OutOfTurn);
    };
    child.phase = Phase::Free;
    set_at(&mut t.agent, b.0, child);
    let mut parent = get_or(&t.agent, a.0, empty_agent());
    parent.phase = Phase::Free;
    set_at(&mut t.agent, a.0, parent);
    Ok(Taken::Done(0))
}
