// What is read of a table by a number: an agent, a message, an entry of an inbox. Every number has an answer, and nothing is asked of the
// table: it may have come from anywhere. A table that is owned and not lent reads its agents and messages itself (`Table::agent_at`).
#![tactic(auto)]

ghost use Rattle.std.specs.Prelude.{◌≡◌, slice_get, take};
ghost use Rattle.std.specs.List.{filter};
ghost use Rattle.rules.specs.Holding.{message_at};
ghost use Rattle.rules.specs.Readers.{read_agent, read_message, read_inbox, is_to};

use records::agents::empty_agent;
use records::places::get_or;
use records::{Agent, AgentNo, Item, MailNo, Message, Status};
use rules::State;

// Reads agent a of the table t.
pub fn agent_at(t: &State, a: AgentNo) -> Option<Agent>
    ensures { result ≡ read_agent t.now a }
{
    (a.0 < t.agents).then_some(get_or(&t.agent, a.0, empty_agent()))
}

// Puts message m together from the table's arrays; past their end it has the filling.
pub fn message_in(t: &State, m: MailNo) -> Message
    ensures { result ≡ message_at t.now m }
{
    Message {
        sender: get_or(&t.sender, m.0, AgentNo(0)),
        number: get_or(&t.number, m.0, 0),
        addressee: get_or(&t.addressee, m.0, AgentNo(0)),
        value: get_or(&t.value, m.0, 0),
        status: get_or(&t.status, m.0, Status::Queued),
    }
}

// Reads message m of the table t.
pub fn message_at(t: &State, m: MailNo) -> Option<Message>
    ensures { result ≡ read_message t.now m }
{
    (m.0 < t.messages).then_some(message_in(t, m))
}

// The message at a place of a's inbox.
fn mail_at(t: &State, a: AgentNo, place: u32) -> Option<MailNo>
    ensures { result ≡ slice_get (filter (is_to t.now a) (take t.now.handed t.now.log)) place }
{
    let log = t.log.iter().copied().take(t.handed as usize);
    log.filter(|m| get_or(&t.addressee, m.0, AgentNo(0)) == a)
        .nth(place as usize)
}

// The entry at a place of an agent's inbox, counted from 0 in the order of handing.
#[tactic(auto, using(rules::proofs::InboxSearch::inbox_read))]
pub fn inbox_at(t: &State, a: AgentNo, place: u32) -> Option<Item>
    ensures { result ≡ read_inbox t.now a place }
{
    let one = message_in(t, mail_at(t, a, place)?);
    Some(Item {
        sender: one.sender,
        number: one.number,
        value: one.value,
    })
}
