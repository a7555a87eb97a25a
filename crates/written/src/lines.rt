// One line of each kind. The words are the text's own; what else prints such a value says it in other words.
ghost use Rattle.text.specs.Decimal.{decimal, bytes};
ghost use Rattle.text.specs.Text.{row, agent_text, message_text};
ghost use Rattle.text.specs.Rows.{phase_part, map_part, status_part, lock_line, count_lines};
ghost use Rattle.written.specs.Pens.{Penned};

use crate::place::Pen;
use records::{Agent, Lock, MailNo, Message, Phase, SiteNo, Status};
use rules::State;

impl Pen<'_> {
    // Puts a phase's word, and its number or a dash, with a comma after each.
    fn phase(&mut self, phase: Phase)
        ensures { Penned (phase_part phase) self.old self.new }
    {
        match phase {
            Phase::Free => self.word(b"free,-,"),
            Phase::Spawning(child) => self.numbered(b"spawning,", child.0, b','),
            Phase::Born(parent) => self.numbered(b"born,", parent.0, b','),
            Phase::Enrolled(parent) => self.numbered(b"enrolled,", parent.0, b','),
            Phase::Asking(target) => self.numbered(b"asking,", target.0, b','),
            Phase::Granted(target) => self.numbered(b"granted,", target.0, b','),
            Phase::Landed => self.word(b"landed,-,"),
            Phase::Booked => self.word(b"booked,-,"),
        }
    }

    // Puts a map entry or a dash, and the line's end.
    fn map(&mut self, map: Option<SiteNo>)
        ensures { Penned (map_part map) self.old self.new }
    {
        match map {
            None => self.word(b"-\n"),
            Some(site) => self.ended(site.0, b'\n'),
        }
    }

    // Puts a status's word, the site travelled to or a dash, and the line's end.
    fn status(&mut self, status: Status)
        ensures { Penned (status_part status) self.old self.new }
    {
        match status {
            Status::Queued => self.word(b"queued,-\n"),
            Status::Out(site) => self.numbered(b"out,", site.0, b'\n'),
            Status::Handed => self.word(b"handed,-\n"),
            Status::Closed => self.word(b"closed,-\n"),
            Status::Lost => self.word(b"lost,-\n"),
        }
    }

    // Puts the lock's line.
    pub(crate) fn lock(&mut self, lock: Lock)
        ensures { Penned (lock_line lock) self.old self.new }
    {
        match lock {
            Lock::Unheld => self.word(b"lock=free\n"),
            Lock::ForMove(a) => self.numbered(b"lock=move:", a.0, b'\n'),
            Lock::ForMail(m) => self.numbered(b"lock=mail:", m.0, b'\n'),
        }
    }

    // Puts the lines of the four counts.
    pub(crate) fn counts(&mut self, t: &State)
        ensures { Penned (count_lines t.now.sites t.now.agents t.now.messages t.now.handed) self.old self.new }
    {
        self.numbered(b"sites=", t.sites, b'\n');
        self.numbered(b"agents=", t.agents, b'\n');
        self.numbered(b"messages=", t.messages, b'\n');
        self.numbered(b"handed=", t.handed, b'\n');
    }

    // Puts an agent's line.
    pub(crate) fn agent(&mut self, i: u32, one: Agent)
        ensures { Penned (row (bytes "agent") i (agent_text one)) self.old self.new }
    {
        self.numbered(b"agent.", i, b'=');
        self.ended(one.site.0, b',');
        self.phase(one.phase);
        self.map(one.map);
    }

    // Puts a message's line.
    pub(crate) fn message(&mut self, i: u32, one: Message)
        ensures { Penned (row (bytes "message") i (message_text one)) self.old self.new }
    {
        self.numbered(b"message.", i, b'=');
        self.ended(one.sender.0, b',');
        self.ended(one.number, b',');
        self.ended(one.addressee.0, b',');
        self.ended(one.value, b',');
        self.status(one.status);
    }

    // Puts the line of a log's entry.
    pub(crate) fn entry(&mut self, i: u32, m: MailNo)
        ensures { Penned (row (bytes "log") i (decimal m.0)) self.old self.new }
    {
        self.numbered(b"log.", i, b'=');
        self.ended(m.0, b'\n');
    }
}
