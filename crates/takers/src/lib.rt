// Takers: what gates are fed to.
#![tactic(auto)]

pub mod canceller;
pub mod edge;
pub mod feed;
pub mod fold;
pub mod list;
pub mod shorten;
pub mod taker;
