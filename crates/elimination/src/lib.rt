// Elimination: the lines of a matrix are cleared by CNOT gates, each time the line with the largest cost drop per gate.
#![tactic(auto)]

mod addition;
mod half;
mod pair;
mod placed;
mod rule;
mod telling;

pub use rule::Elimination;
pub use telling::{cost, gain};
