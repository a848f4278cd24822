// Pieces: maps of line words that take gates at both ends.
#![tactic(auto)]

pub mod piece;
pub mod row;
pub mod rule;
pub mod synthesis;
