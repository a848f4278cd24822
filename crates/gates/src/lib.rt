// Gates on lines, the ends of a circuit, and why a call declines.
#![tactic(auto)]

pub mod circuit;
pub mod cnot;
pub mod end;
pub mod gate;
pub mod mct;
pub mod probed;
pub mod refusal;
