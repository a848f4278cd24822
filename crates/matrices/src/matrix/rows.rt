// Row words: what a word makes of them, and how gates add them up.
ghost use Rattle.std.specs.Prelude.{◌≡◌, ◌<◌, ◌≤◌, ◌↔◌, ◌++◌, length, take, drop, if◌then◌else◌, IsTrue, EachIndex, bit_xor, slice_index, slice_set};
ghost use Rattle.words.specs.Words.{has, parity, unit};
ghost use Rattle.matrices.specs.Matrices.{add_column};

use gates::cnot::Cnot;
use words::{flipped, has_bit};

// 1 where a row and a word share an odd number of ones, and 0 where they share an even number.
pub(super) fn shared(row: u64, word: u64) -> u64
    ensures { result ≡ parity row word }
{
    ((row & word).count_ones() % 2) as u64
}

// Whether the rows are the unit rows.
#[tactic(auto, using(crate::proofs::UnitRows::shifted))]
pub(super) fn are_units(rows: &[u64]) -> bool
    requires { length rows.now ≤ 64 }
    ensures { IsTrue result ↔ EachIndex rows.now (λ k. slice_index rows.now k ≡ unit k) }
{
    // The unit word of the next line, or 0 past line 63.
    let mut next = 1;
    for row in rows {
        if *row != next {
            return false;
        }
        next <<= 1;
    }
    true
}

// Adds row `control` to row `target`.
pub(super) fn add_row(rows: &mut [u64; 64], gate: Cnot)
    requires control { gate.control < 64 }
    requires target { gate.target < 64 }
    ensures { rows.new ≡ slice_set rows.old gate.target (bit_xor (slice_index rows.old gate.target) (slice_index rows.old gate.control)) }
{
    let added = rows[gate.control as usize];
    rows[gate.target as usize] ^= added;
}

// The row with column `target` added to column `control`.
fn column_added(row: u64, gate: Cnot) -> u64
    ensures { result ≡ (if has row gate.target then bit_xor row (unit gate.control) else row) }
{
    if has_bit(row, gate.target) {
        flipped(row, gate.control)
    } else {
        row
    }
}

// Adds column `target` to column `control` in the first rows.
pub(super) fn add_column(rows: &mut [u64; 64], lines: u8, gate: Cnot)
    requires few { lines ≤ 64 }
    requires control { gate.control < 64 }
    ensures { rows.new ≡ add_column gate (take lines rows.old) ++ drop lines rows.old }
{
    for row in &mut rows[..lines as usize] {
        *row = column_added(*row, gate);
    }
}
