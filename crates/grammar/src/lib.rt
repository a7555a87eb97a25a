// The grammar of a script: its lines, and what a line says. There is no code here: the grammar stands in specs/, what follows from it in
// proofs/.
#![tactic(auto)]

use rules::Step;

// A script line, taken apart. Bad is a variant of its own, since the three are told apart in one match.
#[derive(Clone, Copy)]
pub enum Line {
    // not in the grammar
    Bad,
    // so many sites
    Opening(u32),
    Take(Step),
}

// A number at the front of a text: its value, and how many bytes it took.
#[derive(Clone, Copy)]
pub struct Numeral {
    pub value: u32,
    pub taken: usize,
}
