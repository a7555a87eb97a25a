// The whole script: from the input's bytes to the output's, in lent buffers.
#![tactic(auto)]

ghost use Rattle.std.specs.Prelude.{◌≤◌, ◌≡◌, length};
ghost use Rattle.script.specs.Putting.{progress};
ghost use Rattle.program.specs.Program.{no_desk, turn_line, most_input};
ghost use Rattle.grammar.specs.Lines.{lines_of};
ghost use Rattle.program.specs.Running.{Came, at_front, behind, table_behind, run_end, run_lines, run_of};

use lines::read_line;
use program::{MOST_INPUT, Turn};
use scanning::walking::lines_in;
use table::Table;
use turns::take;
use written::answers::answer_line;
use written::place::put_text;

// Where the output of a script goes: a lent buffer, and the place after what was put there.
#[derive(Drop)]
struct Output<'a> {
    buffer: &'a mut [u8],
    next: usize,
}

impl<'a> Output<'a> {
    // The line that answers the k-th line of a script.
    fn put_answer(&mut self, k: u32, turn: &Turn)
        ensures same_reference { self.new.buffer.ghost_name ≡ self.old.buffer.ghost_name }
        ensures put { progress self.new ≡ behind (progress self.old) (turn_line k turn.now) }
    {
        let shown = u32::from(turn.code);
        let mut room = [0u8; 43];
        let count = answer_line(&mut room, k, shown, turn.number);
        self.next = put_text(self.buffer, self.next, &room[..count]);
    }

    // The written table. The place is tested first: what `get_mut` leaves of the other bytes is unknown.
    fn put_table(&mut self, table: Table)
        ensures same_reference { self.new.buffer.ghost_name ≡ self.old.buffer.ghost_name }
        ensures put { progress self.new ≡ table_behind (progress self.old) table.state }
    {
        if self.buffer.len() < self.next {
            return;
        }
        let answer = table.write(&mut self.buffer[self.next..]);
        self.next += answer.length;
    }

    // The end of a run.
    #[tactic(auto, unfolding(program::specs::Running::run_end))]
    fn put_end(&mut self, desk: Option<Table>)
        ensures same_reference { self.new.buffer.ghost_name ≡ self.old.buffer.ghost_name }
        ensures put { progress self.new ≡ run_end (progress self.old) desk }
    {
        match desk {
            Some(table) => self.put_table(table),
            None => self.next = put_text(self.buffer, self.next, b"state=none\n"),
        }
    }
}

// An answer for each line, and then the end.
fn run_lines(input: &[u8], output: &mut [u8]) -> usize
    requires { length input.now ≤ most_input }
    ensures { Came (run_lines (at_front output.old) no_desk 1 (lines_of input.now)) result output.new }
{
    let mut out = Output {
        buffer: output,
        next: 0,
    };
    let mut desk = None;
    for (k, line) in (1u32..).zip(lines_in(input)) {
        let turn = take(desk, read_line(line));
        out.put_answer(k, &turn);
        desk = turn.desk;
    }
    out.put_end(desk);
    out.next
}

// The output of a script, at the front of a buffer as far as it has room; answers how many bytes were put there.
pub fn run(input: &[u8], output: &mut [u8]) -> usize
    ensures { Came (run_of input.now output.old) result output.new }
{
    if MOST_INPUT < input.len() {
        return put_text(output, 0, b"state=toolong\n");
    }
    run_lines(input, output)
}
