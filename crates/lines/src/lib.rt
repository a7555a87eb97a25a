// A line taken apart: its word, and then its numbers.
#![tactic(auto)]

ghost use Rattle.std.specs.Prelude.{◌≡◌, [], ◌∷◌, None, Some, MatchOption};
ghost use Rattle.std.specs.Option.{option_map};
ghost use Rattle.grammar.specs.Grammar.{Kind, after_word, numbers_of, said_by, line_among, line_of};
ghost use Rattle.grammar.specs.LineParts.{NoneLeads, Leads, SaysAs, step_line, ask_kind, send_kind, agent_kinds, mail_kinds};

use grammar::Line;
use records::{AgentNo, MailNo, SiteNo};
use rules::Step;
use scanning::numerals::read_number;

// The number that others follow at the front of a text, and what stands behind its comma.
fn leading_number(text: &[u8]) -> Option<(u32, &[u8])>
    ensures { MatchOption result (NoneLeads text.now) (λ p. Leads text.now p.0 p.1.now) }
{
    let number = read_number(text)?;
    let rest = text[number.taken..].strip_prefix(b",")?;
    Some((number.value, rest))
}

// The number that is all of a text.
pub fn last_number(text: &[u8]) -> Option<u32>
    ensures { numbers_of 1 text.now ≡ option_map (λ v. v ∷ []) result }
{
    let number = read_number(text)?;
    if number.taken < text.len() {
        return None;
    }
    Some(number.value)
}

// A line of one number, from behind its word: what is said of the number.
fn read_one<F: FnOnce(u32) -> Line>(text: &[u8], says: F) -> Line
    requires { F.IsAlwaysCallable says }
    ensures { (k : Kind) → SaysAs (F.post says) k → result ≡ said_by k (numbers_of 1 text.now) }
{
    last_number(text).map_or(Line::Bad, says)
}

// The step of a line of two numbers, from behind its word.
fn read_ask(text: &[u8]) -> Option<Step>
    ensures { step_line result ≡ said_by ask_kind (numbers_of 2 text.now) }
{
    let (a, rest) = leading_number(text)?;
    let site = last_number(rest)?;
    Some(Step::Ask(AgentNo(a), SiteNo(site)))
}

// The step of a line of four numbers, from behind its word.
fn read_send(text: &[u8]) -> Option<Step>
    ensures { step_line result ≡ said_by send_kind (numbers_of 4 text.now) }
{
    let (a, rest) = leading_number(text)?;
    let (n, rest) = leading_number(rest)?;
    let (b, rest) = leading_number(rest)?;
    let value = last_number(rest)?;
    Some(Step::Send(AgentNo(a), n, AgentNo(b), value))
}

// The line that takes a step, where there is one.
fn step_line(step: Option<Step>) -> Line
    ensures { result ≡ step_line step }
{
    step.map_or(Line::Bad, Line::Take)
}

// What stands in a text behind a word, where it begins with the word. The first byte is asked before the others, since at it nearly every
// other word differs, and `strip_prefix` compares all of them.
fn behind<'a>(text: &'a [u8], word: &[u8]) -> Option<&'a [u8]>
    ensures { MatchOption result (after_word word.now text.now ≡ None) (λ rest. after_word word.now text.now ≡ Some rest.now) }
{
    if let (Some(first), Some(other)) = (text.first(), word.first()) {
        if first != other {
            return None;
        }
    }
    text.strip_prefix(word)
}

// The lines that the network brings about messages. The kinds of line stand in three functions, each with the part of the grammar's list
// that it promises; one function of all thirteen would be no plainer.
fn read_mail_line(line: &[u8]) -> Line
    ensures { result ≡ line_among mail_kinds line.now }
{
    if let Some(rest) = behind(line, b"forward=") {
        return read_one(rest, |m| Line::Take(Step::Forward(MailNo(m))));
    }
    if let Some(rest) = behind(line, b"hand=") {
        return read_one(rest, |m| Line::Take(Step::Hand(MailNo(m))));
    }
    if let Some(rest) = behind(line, b"close=") {
        return read_one(rest, |m| Line::Take(Step::Close(MailNo(m))));
    }
    Line::Bad
}

// The lines that the network brings about agents, and then those about messages.
fn read_agent_line(line: &[u8]) -> Line
    ensures { result ≡ line_among agent_kinds line.now }
{
    if let Some(rest) = behind(line, b"enrol=") {
        return read_one(rest, |b| Line::Take(Step::Enrol(AgentNo(b))));
    }
    if let Some(rest) = behind(line, b"greet=") {
        return read_one(rest, |b| Line::Take(Step::Greet(AgentNo(b))));
    }
    if let Some(rest) = behind(line, b"grant=") {
        return read_one(rest, |a| Line::Take(Step::Grant(AgentNo(a))));
    }
    if let Some(rest) = behind(line, b"leap=") {
        return read_one(rest, |a| Line::Take(Step::Leap(AgentNo(a))));
    }
    if let Some(rest) = behind(line, b"book=") {
        return read_one(rest, |a| Line::Take(Step::Book(AgentNo(a))));
    }
    if let Some(rest) = behind(line, b"settle=") {
        return read_one(rest, |a| Line::Take(Step::Settle(AgentNo(a))));
    }
    read_mail_line(line)
}

// A script line: an opening, what users begin, and then what the network brings.
pub fn read_line(line: &[u8]) -> Line
    ensures { result ≡ line_of line.now }
{
    if let Some(rest) = behind(line, b"sites=") {
        return read_one(rest, Line::Opening);
    }
    if let Some(rest) = behind(line, b"spawn=") {
        return read_one(rest, |a| Line::Take(Step::Spawn(AgentNo(a))));
    }
    if let Some(rest) = behind(line, b"ask=") {
        return step_line(read_ask(rest));
    }
    if let Some(rest) = behind(line, b"send=") {
        return step_line(read_send(rest));
    }
    read_agent_line(line)
}
