// What stands at the front of a text: its first line, and a number; and its lines, one after the other.
#![tactic(auto)]

pub mod finding;
pub mod numerals;
pub mod walking;
