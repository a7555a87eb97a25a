// The rule of send: a new message, or a retry of one. It changes a table in place, and stands on every table, sound or not: a place past
// an array reads as its filling.
#![tactic(auto)]

ghost use Rattle.std.specs.Prelude.{◌≡◌, IfErr};
ghost use Rattle.records.specs.Codes.{IsRefusal};
ghost use Rattle.rules.specs.Answers.{reply_of};
ghost use Rattle.rules.specs.Steps.{sent_by, take_new, find_sent, retry, by_number, send_rule};

use readers::{agent_at, message_in};
use records::limits::MOST_MESSAGES;
use records::places::{get_or, set_at};
use records::{AgentNo, Code, MailNo, Message, Status};
use rules::{State, Taken};

// The message that a numbers n, to b with the value v. Tests the two agents, and then goes by the number, which is the message's.
#[tactic(auto, unfolding(rules::specs::Steps::send_rule))]
pub fn send_rule(t: &mut State, a: AgentNo, n: u32, b: AgentNo, v: u32) -> Result<Taken, Code>
    ensures replies { reply_of t.new result ≡ send_rule t.old a n b v }
    ensures refusal { IfErr result IsRefusal }
{
    let one = agent_at(t, a).ok_or(Code::NoAgent)?;
    if b.0 >= t.agents {
        return Err(Code::NoAgent);
    }
    if one.phase.is_child() {
        return Err(Code::NotUp);
    }
    by_number(
        t,
        Message {
            sender: a,
            number: n,
            addressee: b,
            value: v,
            status: Status::Queued,
        },
    )
}

// The number after the last one is a new message, the numbers up to it are retries.
#[tactic(auto, unfolding(rules::specs::Steps::by_number))]
fn by_number(t: &mut State, new: Message) -> Result<Taken, Code>
    ensures replies { reply_of t.new result ≡ by_number t.old new.sender new.number new.addressee new.value }
    ensures refusal { IfErr result IsRefusal }
{
    if new.number == 0 {
        return Err(Code::Gap);
    }
    let sent = sent_by(t, new.sender);
    if new.number - 1 == sent {
        return take_new(t, new);
    }
    if new.number > sent {
        return Err(Code::Gap);
    }
    retry(t, new)
}

// Takes a message as the next one, queued.
#[tactic(auto, unfolding(rules::specs::Steps::take_new))]
fn take_new(t: &mut State, new: Message) -> Result<Taken, Code>
    ensures replies { reply_of t.new result ≡ take_new t.old new.sender new.number new.addressee new.value }
    ensures refusal { IfErr result IsRefusal }
{
    let m = t.messages;
    if m >= MOST_MESSAGES {
        return Err(Code::MessagesFull);
    }
    set_at(&mut t.sender, m, new.sender);
    set_at(&mut t.number, m, new.number);
    set_at(&mut t.addressee, m, new.addressee);
    set_at(&mut t.value, m, new.value);
    set_at(&mut t.status, m, Status::Queued);
    t.messages += 1;
    Ok(Taken::Done(m))
}

// A retry is the same message if it has the addressee and the value that were taken, queued still or long closed.
#[tactic(auto, unfolding(rules::specs::Steps::retry))]
fn retry(t: &State, new: Message) -> Result<Taken, Code>
    ensures replies { reply_of t.now result ≡ retry t.now new.sender new.number new.addressee new.value }
    ensures refusal { IfErr result IsRefusal }
{
    let m = find_sent(t, new.sender, new.number).ok_or(Code::Changed)?;
    let taken = message_in(t, m);
    if taken.addressee != new.addressee || taken.value != new.value {
        return Err(Code::Changed);
    }
    Ok(Taken::Repeat(m))
}

// How many messages were taken from a. The messages are gone through by number, here and below: past the array the definitions count the
// filling, which a chain over a slice would leave out.
#[tactic(auto, unfolding(records::specs::Places::count_below))]
fn sent_by(t: &State, a: AgentNo) -> u32
    ensures { result ≡ sent_by t.now a }
{
    let mut count = 0;
    for i in 0..t.messages {
        if get_or(&t.sender, i, AgentNo(0)) == a {
            count += 1;
        }
    }
    count
}

// The message that was taken from a under the number n, whatever has become of it.
#[tactic(auto, unfolding(records::specs::Places::last_below))]
fn find_sent(t: &State, a: AgentNo, n: u32) -> Option<MailNo>
    ensures { result ≡ find_sent t.now a n }
{
    for i in (0..t.messages).rev() {
        if get_or(&t.sender, i, AgentNo(0)) == a && get_or(&t.number, i, 0) == n {
            return Some(MailNo(i));
        }
    }
    None
}
