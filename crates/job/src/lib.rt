// Jobs: a piece and a book under a ticket.
#![tactic(auto)]

pub mod call;
pub mod conduct;
pub mod play;
pub mod playable;
pub mod step;
pub mod ticket;
mod work;
