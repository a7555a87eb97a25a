// The one place where a step meets the soundness test and its rule: one match on the step, as `rule_of` has it.
#![tactic(auto)]

ghost use Rattle.std.specs.Prelude.{◌≡◌, IfErr};
ghost use Rattle.records.specs.Codes.{IsRefusal};
ghost use Rattle.rules.specs.Answers.{reply_of};
ghost use Rattle.rules.specs.Steps.{step_of};

use creations::{enrol_rule, greet_rule, spawn_rule};
use deliveries::{close_rule, forward_rule, hand_rule};
use leaps::{book_rule, grant_rule, leap_rule};
use moves::{ask_rule, settle_rule};
use records::Code;
use rules::{State, Step, Taken};
use sending::send_rule;
use soundness::is_sound;

// Takes a step in place, by its rule. A table that is not sound refuses every step, before all else. It is a call of its own, so that its
// callers stay small and move their tables less.
#[tactic(auto, using(rules::proofs::Stepping::sound_log), unfolding(rules::specs::Steps::step_of, rules::specs::Steps::rule_of))]
#[inline(never)]
pub fn take(t: &mut State, step: Step) -> Result<Taken, Code>
    ensures replies { reply_of t.new result ≡ step_of t.old step }
    ensures refusal { IfErr result IsRefusal }
{
    if !is_sound(t) {
        return Err(Code::BadState);
    }
    match step {
        Step::Spawn(a) => spawn_rule(t, a),
        Step::Ask(a, u) => ask_rule(t, a, u),
        Step::Send(a, n, b, v) => send_rule(t, a, n, b, v),
        Step::Enrol(b) => enrol_rule(t, b),
        Step::Greet(b) => greet_rule(t, b),
        Step::Grant(a) => grant_rule(t, a),
        Step::Leap(a) => leap_rule(t, a),
        Step::Book(a) => book_rule(t, a),
        Step::Settle(a) => settle_rule(t, a),
        Step::Forward(m) => forward_rule(t, m),
        Step::Hand(m) => hand_rule(t, m),
        Step::Close(m) => close_rule(t, m),
    }
}
