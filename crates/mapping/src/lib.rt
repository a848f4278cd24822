// Mapping the rows of a table: the run of a table that takes MCT gates.
#![tactic(auto)]

mod put;
mod row;
mod rows;
pub mod rule;
pub mod theorems;
mod word;
mod work;
