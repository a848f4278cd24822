// The order sheet: its reader.
#![tactic(auto)]

pub mod body;
pub mod contents;
pub mod entry;
pub mod fault;
pub mod item;
mod numbers;
pub mod reader;
mod rest;
pub mod sheet;
mod text;
