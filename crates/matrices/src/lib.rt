// Matrices of bits as pieces that take CNOT gates.
#![tactic(auto)]

pub mod matrix;
