// A matrix beside its inverse, in two layouts. The ghost field says what holds of every pair. Whether a line lies within it
// depends on the line too, so each function asks it; that a trial restores the pair, and how large a weight or a cost is, each
// says itself.
ghost use Rattle.elimination.specs.Layouts.{Sound};

use crate::half::Half;

mod choice;
mod clear;
mod cleared;
mod new;
mod put;
mod run;

#[derive(Clone, Copy)]
pub(crate) struct Pair {
    lines: u8,
    // In how many entries the two differ from identity.
    cost: u32,
    rows: Half,
    columns: Half,
    ghost sound: { Sound lines cost rows columns },
}
