// The table as a host has it: the state that the rules speak of, behind a name of its own, with every step as a method.
#![tactic(auto)]

ghost use Rattle.std.specs.Prelude.{◌≡◌, get_or};
ghost use Rattle.rules.specs.Readers.{read_agent, read_message, read_inbox};
ghost use Rattle.rules.specs.SoundTest.{sound_test};
ghost use Rattle.table.specs.Face.{no_table, answer_of, open_table, step_table};
ghost use Rattle.text.specs.Writing.{write_of};

use parts::reply;
use records::agents::empty_agent;
use records::{Agent, AgentNo, Code, Item, MailNo, Message, SiteNo, Status, limits};
use rules::{Reply, State, Step};
use steps::take;
use text::Written;

#[derive(Clone, Copy)]
pub struct Table {
    pub state: State,
}

// What every step hands back: the table as it now stands, a code, and a number that is 0 where the rules name none. `step_table` answers
// this record, and README names its fields.
#[derive(Clone, Copy)]
pub struct Answer {
    pub table: Table,
    pub code: Code,
    pub number: u32,
}

impl From<Reply> for Answer {
    ghost from_gives = { λ r answer. answer ≡ answer_of r };

    // Hands back what the rules reply.
    fn from(r: Reply) -> Answer {
        Answer {
            table: Table { state: r.state },
            code: r.code,
            number: r.number,
        }
    }
}

// Reads an array at a place, and the filling past its end. It is not lent: where a method lends a part of its table to a reader, the
// whole table is copied first, which takes several times as long as the reading (docs/BENCH.md).
fn read_in<T: Copy, const N: usize>(xs: [T; N], i: u32, filling: T) -> T
    ensures { result ≡ get_or xs i filling }
{
    let at = i as usize;
    if at < N { xs[at] } else { filling }
}

impl Table {
    pub const MOST_SITES: u32 = limits::MOST_SITES;

    pub const MOST_AGENTS: u32 = limits::MOST_AGENTS;

    pub const MOST_MESSAGES: u32 = limits::MOST_MESSAGES;

    // Gives the table that stands where an answer has none: every count 0, the lock free, all room empty.
    pub fn none() -> Table
        ensures { result ≡ no_table }
    {
        Table {
            state: parts::none(),
        }
    }

    // Opens a table of so many sites, with agent 0 free at site 0 and mapped there; refused where the count is 0 or above 16.
    #[tactic(auto, unfolding(crate::specs::Face::open_table))]
    pub fn open(sites: u32) -> Answer
        ensures { result ≡ open_table sites }
    {
        Answer::from(parts::opening(sites))
    }

    // Tells whether the table is sound.
    pub fn is_sound(self) -> bool
        ensures { result ≡ sound_test self.state }
    {
        soundness::is_sound(&self.state)
    }

    // The twelve steps stand here by name, as README shows them to a host.

    // A new agent at the site of a, which is then spawning. The number is the child's.
    pub fn spawn(mut self, a: AgentNo) -> Answer
        ensures { result ≡ step_table self (Step.Spawn a) }
    {
        self.step(Step::Spawn(a))
    }

    // A free agent a asks to move to u.
    pub fn ask(mut self, a: AgentNo, u: SiteNo) -> Answer
        ensures { result ≡ step_table self (Step.Ask a u) }
    {
        self.step(Step::Ask(a, u))
    }

    // Takes the message that a numbers n, to b with the value v. The number is the message's.
    pub fn send(mut self, a: AgentNo, n: u32, b: AgentNo, v: u32) -> Answer
        ensures { result ≡ step_table self (Step.Send a n b v) }
    {
        self.step(Step::Send(a, n, b, v))
    }

    // The server learns of a born agent b.
    pub fn enrol(mut self, b: AgentNo) -> Answer
        ensures { result ≡ step_table self (Step.Enrol b) }
    {
        self.step(Step::Enrol(b))
    }

    // An enrolled agent b and its parent become free.
    pub fn greet(mut self, b: AgentNo) -> Answer
        ensures { result ≡ step_table self (Step.Greet b) }
    {
        self.step(Step::Greet(b))
    }

    // Takes the lock for the move of an asking agent a.
    pub fn grant(mut self, a: AgentNo) -> Answer
        ensures { result ≡ step_table self (Step.Grant a) }
    {
        self.step(Step::Grant(a))
    }

    // A granted agent a goes to its target.
    pub fn leap(mut self, a: AgentNo) -> Answer
        ensures { result ≡ step_table self (Step.Leap a) }
    {
        self.step(Step::Leap(a))
    }

    // The server learns where a landed agent a is, and frees the lock.
    pub fn book(mut self, a: AgentNo) -> Answer
        ensures { result ≡ step_table self (Step.Book a) }
    {
        self.step(Step::Book(a))
    }

    // A booked agent a becomes free.
    pub fn settle(mut self, a: AgentNo) -> Answer
        ensures { result ≡ step_table self (Step.Settle a) }
    {
        self.step(Step::Settle(a))
    }

    // Sends a queued message m out to its addressee's site, with the lock held for it.
    pub fn forward(mut self, m: MailNo) -> Answer
        ensures { result ≡ step_table self (Step.Forward m) }
    {
        self.step(Step::Forward(m))
    }

    // An out message m reaches its site.
    pub fn hand(mut self, m: MailNo) -> Answer
        ensures { result ≡ step_table self (Step.Hand m) }
    {
        self.step(Step::Hand(m))
    }

    // A handed message m is over, and the lock is free.
    pub fn close(mut self, m: MailNo) -> Answer
        ensures { result ≡ step_table self (Step.Close m) }
    {
        self.step(Step::Close(m))
    }

    // Takes a step.
    #[tactic(auto, unfolding(crate::specs::Face::step_table))]
    pub fn step(mut self, step: Step) -> Answer
        ensures { result ≡ step_table self step }
    {
        let taken = take(&mut self.state, step);
        Answer::from(reply(self.state, taken))
    }

    // Reads the agent a.
    pub fn agent_at(self, a: AgentNo) -> Option<Agent>
        ensures { result ≡ read_agent self.state a }
    {
        let one = read_in(self.state.agent, a.0, empty_agent());
        (a.0 < self.state.agents).then_some(one)
    }

    // Reads the message m.
    pub fn message_at(self, m: MailNo) -> Option<Message>
        ensures { result ≡ read_message self.state m }
    {
        let one = Message {
            sender: read_in(self.state.sender, m.0, AgentNo(0)),
            number: read_in(self.state.number, m.0, 0),
            addressee: read_in(self.state.addressee, m.0, AgentNo(0)),
            value: read_in(self.state.value, m.0, 0),
            status: read_in(self.state.status, m.0, Status::Queued),
        };
        (m.0 < self.state.messages).then_some(one)
    }

    // Reads the entry at a place of a's inbox, counted from 0 in the order of handing.
    pub fn inbox_at(self, a: AgentNo, place: u32) -> Option<Item>
        ensures { result ≡ read_inbox self.state a place }
    {
        readers::inbox_at(&self.state, a, place)
    }

    // Writes the table's text at the front of buf and answers its length. Refused where the table is not sound, and then where the text
    // is longer than buf; a refused writing changes no byte.
    pub fn write(self, buf: &mut [u8]) -> Written
        ensures { (result ≡ (write_of self.state buf.old).answer) × (buf.new ≡ (write_of self.state buf.old).buffer) }
    {
        written::write(self.state, buf)
    }
}
