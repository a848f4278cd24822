// The answer sheet: what it is, and how it is written.
#![tactic(auto)]

mod contents;
pub mod draft;
pub mod fault;
pub mod head;
mod line;
mod pen;
