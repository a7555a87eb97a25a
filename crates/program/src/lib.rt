// The script program: what a script has come to, and what it prints. There is no code here: the program's output stands in specs/, what
// follows from it in proofs/.
#![tactic(auto)]

use records::Code;
use table::Table;

// A script has at most so many bytes.
pub const MOST_INPUT: usize = 65536;

// What one line answers, and what the script has then come to: its table, once an opening was Done. `take_line` answers this record.
#[derive(Clone, Copy)]
pub struct Turn {
    pub desk: Option<Table>,
    pub code: Code,
    pub number: u32,
}
