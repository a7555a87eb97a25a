// What the script program prints, how long it is at most, and that it is in order. There is no code here: what is stated stands in
// specs/, its proof in proofs/.
#![tactic(auto)]

// No script's output has more bytes (`output-fits` in proofs/Room.antt).
pub const MOST_OUTPUT: usize = 1212416;
