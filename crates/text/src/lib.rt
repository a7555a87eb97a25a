// The written table: its text, and what a writing answers. There is no code here: the text stands in specs/, what follows from it in
// proofs/.
#![tactic(auto)]

use records::Code;

// What a writing answers: the record of `write_of`.
#[derive(Clone, Copy)]
pub struct Written {
    pub code: Code,
    pub number: u32,
    // how many bytes of the buffer the text takes, 0 where the writing is refused
    pub length: usize,
}
