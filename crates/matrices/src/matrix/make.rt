// How a matrix is made, and its rows read.
ghost use Rattle.std.specs.Prelude.{◌≡◌, ℕ, ◌<◌, ◌≤◌, ◌↔◌, length, take, IsTrue, slice_index};
ghost use Rattle.std.specs.List.{slice_get};
ghost use Rattle.words.specs.Words.{unit};
ghost use Rattle.matrices.specs.Matrices.{unit_rows};
ghost use Rattle.matrices.specs.Meanings.{rows_of, Made};

use super::Matrix;
use gates::refusal::Refusal;
use pieces::row::first_wide;
use std::array;
use words::unit;

impl Matrix {
    // The matrix of these row words.
    pub fn new(lines: u8, rows: &[u64]) -> Result<Matrix, Refusal>
        ensures { Made lines rows.now result }
    {
        if !is_size(lines) || rows.len() != lines as usize {
            return Err(Refusal::WrongSize);
        }
        if let Some(row) = first_wide(lines, rows) {
            return Err(Refusal::WideRow { row });
        }
        Ok(Matrix {
            lines,
            rows: padded(rows),
        })
    }

    // The matrix of identity.
    pub fn identity(lines: u8) -> Result<Matrix, Refusal>
        ensures { Made lines (unit_rows 0 lines) result }
    {
        if !is_size(lines) {
            return Err(Refusal::WrongSize);
        }
        Ok(Matrix::units(lines))
    }

    // The matrix of the unit rows.
    pub(super) fn units(lines: u8) -> Matrix
        requires some { 1 ≤ lines }
        requires few { lines ≤ 64 }
        ensures lines { result.lines ≡ lines }
        ensures rows { rows_of result ≡ unit_rows 0 lines }
    {
        Matrix {
            lines,
            rows: unit_words(),
        }
    }

    // The row words.
    pub fn rows(&self) -> &[u64]
        ensures { result.now ≡ rows_of self.now }
    {
        &self.rows[..self.lines as usize]
    }

    // A row word, or none past the last row.
    pub fn row(&self, r: u8) -> Option<u64>
        ensures { result ≡ slice_get (rows_of self.now) r }
    {
        self.rows().get(r as usize).copied()
    }
}

// Whether a matrix may have so many lines.
fn is_size(lines: u8) -> bool
    ensures { IsTrue result ↔ ((1 ≤ lines) × (lines ≤ 64)) }
{
    (1..=64).contains(&lines)
}

// The row words in front of zeros.
fn padded(rows: &[u64]) -> [u64; 64]
    requires { length rows.now ≤ 64 }
    ensures { take (length rows.now) result ≡ rows.now }
{
    let mut held = [0; 64];
    held[..rows.len()].copy_from_slice(rows);
    held
}

// The unit words of all lines.
fn unit_words() -> [u64; 64]
    ensures { (r : ℕ) → r < 64 → slice_index result r ≡ unit r }
{
    array::from_fn(|r| unit(r as u8))
}
