// Tables of images as pieces that take gates of any kind.
#![tactic(auto)]

pub mod table;
