// The rules of a move's ends: ask and settle. Each changes a table in place, and stands on every table, sound or not: a place past an
// array reads as its filling.
#![tactic(auto)]

ghost use Rattle.std.specs.Prelude.{◌≡◌, IfErr};
ghost use Rattle.records.specs.Codes.{IsRefusal};
ghost use Rattle.rules.specs.Answers.{reply_of};
ghost use Rattle.rules.specs.Steps.{ask_rule, settle_rule};

use readers::agent_at;
use records::places::set_at;
use records::{AgentNo, Code, Phase, SiteNo};
use rules::{State, Taken};

// A free agent asks to move to u. Its own site is a target like any other.
#[tactic(auto, unfolding(rules::specs::Steps::ask_rule))]
pub fn ask_rule(t: &mut State, a: AgentNo, u: SiteNo) -> Result<Taken, Code>
    ensures replies { reply_of t.new result ≡ ask_rule t.old a u }
    ensures refusal { IfErr result IsRefusal }
{
    let mut one = agent_at(t, a).ok_or(Code::NoAgent)?;
    if u.0 >= t.sites {
        return Err(Code::NoSite);
    }
    if !one.phase.is_free() {
        return Err(Code::Busy);
    }
    one.phase = Phase::Asking(u);
    set_at(&mut t.agent, a.0, one);
    Ok(Taken::Done(0))
}

// A booked agent becomes free. Only the phase changes: map and lock were set right at book.
#[tactic(auto, unfolding(rules::specs::Steps::settle_rule))]
pub fn settle_rule(t: &mut State, a: AgentNo) -> Result<Taken, Code>
    ensures replies { reply_of t.new result ≡ settle_rule t.old a }
    ensures refusal { IfErr result IsRefusal }
{
    let mut one = agent_at(t, a).ok_or(Code::NoAgent)?;
    if one.phase != Phase::Booked {
        return Err(Code::OutOfTurn);
    }
    one.phase = Phase::Free;
    set_at(&mut t.agent, a.0, one);
    Ok(Taken::Done(0))
}
