// The gate book: the gates found at the two ends of a circuit, in memory that the caller lends.
#![tactic(auto)]

ghost use Rattle.std.specs.Prelude.{◌+◌, ◌≤◌, min, length};

mod counts;
pub mod example;
mod layout;
mod methods;

// Input gates stand from the front of the places, output gates from their back, so that the places
// hold the circuit in order, with the free places between the two ends.
#[derive(Drop)]
pub struct Book<'a, G> {
    places: &'a mut [G],
    inputs: usize,
    outputs: usize,
    ghost fits: { inputs + outputs ≤ min 16384 (length places.now) },
}
