// The rows of the agents, of the messages and of the log, each from 0 upward.
ghost use Rattle.std.specs.Prelude.{ℕ, List, ◌<◌};
ghost use Rattle.text.specs.Text.{rows_below};
ghost use Rattle.text.specs.Rows.{agent_rows, message_rows, log_rows};
ghost use Rattle.written.specs.Pens.{Penned};

use crate::place::Pen;
use readers::message_in;
use records::MailNo;
use records::agents::empty_agent;
use records::places::get_or;
use rules::State;

impl Pen<'_> {
    // Puts a row for each number below a count.
    fn rows<F: Fn(&mut Pen, u32)>(&mut self, count: u32, row: F)
        ghost text: { ℕ → List ℕ }
        requires callable { (pen : _) (i : ℕ) → i < count → F.pre row pen i }
        requires puts { (pen : _) (i : ℕ) (after : _) → i < count → F.post row pen i tt after → Penned (text i) pen.now after.now }
        ensures { Penned (rows_below count text) self.old self.new }
    {
        for i in 0..count {
            row(self, i);
        }
    }

    // Puts a row for each agent.
    pub(crate) fn agents(&mut self, t: &State)
        ensures { Penned (agent_rows t.now) self.old self.new }
    {
        self.rows(t.agents, |pen, i| {
            pen.agent(i, get_or(&t.agent, i, empty_agent()));
        });
    }

    // Puts a row for each message.
    pub(crate) fn messages(&mut self, t: &State)
        ensures { Penned (message_rows t.now) self.old self.new }
    {
        self.rows(t.messages, |pen, i| {
            pen.message(i, message_in(t, MailNo(i)));
        });
    }

    // Puts a row for each entry of the log.
    pub(crate) fn log(&mut self, t: &State)
        ensures { Penned (log_rows t.now) self.old self.new }
    {
        self.rows(t.handed, |pen, i| {
            pen.entry(i, get_or(&t.log, i, MailNo(0)));
        });
    }
}
