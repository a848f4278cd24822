// Pieces of one line, which take gates of any kind and have a run on MCT gates.
#![tactic(auto)]

mod make;
pub mod piece;
pub mod wire;
