// One line of a script against what the script has come to.
#![tactic(auto)]

ghost use Rattle.std.specs.Prelude.{◌≡◌};
ghost use Rattle.table.specs.Face.{open_table};
ghost use Rattle.program.specs.Program.{take_line, turned_away, opened_by};
ghost use Rattle.program.specs.Taking.{take_opening};

use grammar::Line;
use program::Turn;
use records::Code;
use table::Table;

// A line that is refused before it comes to the table.
fn turned_away(desk: Option<Table>, code: Code) -> Turn
    ensures { result ≡ turned_away desk code }
{
    Turn {
        desk,
        code,
        number: 0,
    }
}

// An opening, which opens the script where it is Done.
fn opening(sites: u32) -> Turn
    ensures { result ≡ opened_by (open_table sites) }
{
    let answer = Table::open(sites);
    Turn {
        desk: (answer.code == Code::Done).then_some(answer.table),
        code: answer.code,
        number: answer.number,
    }
}

// A line that is no step: an opening goes on, and a line that is not in the grammar answers 24.
#[tactic(auto, unfolding(program::specs::Taking::take_opening))]
fn take_opening(desk: Option<Table>, line: Line) -> Turn
    ensures { result ≡ take_opening desk line }
{
    let Line::Opening(sites) = line else {
        return turned_away(desk, Code::BadLine);
    };
    match desk {
        Some(_) => turned_away(desk, Code::AlreadyOpen),
        None => opening(sites),
    }
}

// One line: a step goes on, and a line that is none is an opening or not in the grammar.
#[tactic(auto, using(program::proofs::Turns::no_step), unfolding(program::specs::Program::take_line))]
pub fn take(desk: Option<Table>, line: Line) -> Turn
    ensures { result ≡ take_line desk line }
{
    let Line::Take(step) = line else {
        return take_opening(desk, line);
    };
    let Some(table) = desk else {
        return turned_away(desk, Code::NotOpen);
    };
    let answer = table.step(step);
    Turn {
        desk: Some(answer.table),
        code: answer.code,
        number: answer.number,
    }
}
