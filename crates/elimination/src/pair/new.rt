// A pair made from the rows of a matrix and of its inverse. Each function takes the rows, at most 64, and not the matrix, whose
// type says so: no invariant of a loop could name the rows that a call returns.
ghost use Rattle.std.specs.Prelude.{◌≡◌, ℕ, ◌+◌, ◌^◌, ◌<◌, ◌≤◌, length, take, slice_index};
ghost use Rattle.words.specs.Words.{has};
ghost use Rattle.matrices.specs.Meanings.{rows_of};
ghost use Rattle.clearing.specs.Pairs.{Inverses, differing};
ghost use Rattle.elimination.specs.Layouts.{Across, Below, both};
ghost use Rattle.elimination.specs.States.{state_of, Paired};

use super::Pair;
use crate::half::Half;
use gates::refusal::Refusal;
use matrices::matrix::Matrix;
use pieces::piece::Piece;

// The row words in front of zeros. As in `matrices`: a public function for both would have to ask for 64 at most.
fn padded(rows: &[u64]) -> [u64; 64]
    requires { length rows.now ≤ 64 }
    ensures { take (length rows.now) result ≡ rows.now }
{
    let mut words = [0; 64];
    words[..rows.len()].copy_from_slice(rows);
    words
}

// Column `j` of row words.
fn column(rows: &[u64], j: usize) -> u64
    requires few { length rows.now ≤ 64 }
    requires place { j < 64 }
    ensures small { result < 2 ^ length rows.now }
    ensures bits { (i : ℕ) → i < length rows.now → has result i ≡ has (slice_index rows.now i) j }
{
    let mut column = 0;
    for (i, row) in rows.iter().enumerate() {
        column ^= ((*row >> j) & 1) << i;
    }
    column
}

// The columns of row words.
fn across(rows: &[u64]) -> [u64; 64]
    requires { length rows.now ≤ 64 }
    ensures across { Across (length rows.now) rows.now result }
    ensures small { Below (length rows.now) result }
{
    let mut columns = [0; 64];
    for (j, word) in columns[..rows.len()].iter_mut().enumerate() {
        *word = column(rows, j);
    }
    columns
}

// In how many entries row words differ from those of identity.
fn count_off(rows: &[u64]) -> u32
    requires { length rows.now ≤ 64 }
    ensures value { result ≡ differing 0 rows.now }
    ensures small { result ≤ 4096 }
{
    let mut count = 0;
    for (i, row) in rows.iter().enumerate() {
        count += (*row ^ (1 << i)).count_ones();
    }
    count
}

// In how many entries a matrix and its inverse differ from identity.
fn count_both(rows: &[u64], inverse: &[u64]) -> u32
    requires rows { length rows.now ≤ 64 }
    requires inverse { length inverse.now ≤ 64 }
    ensures { result ≡ differing 0 rows.now + differing 0 inverse.now }
{
    count_off(rows) + count_off(inverse)
}

impl Pair {
    // The pair of a matrix, unless two words share an image.
    pub(crate) fn of(matrix: &Matrix) -> Result<Pair, Refusal>
        ensures { Paired matrix.now result }
    {
        let inverse = matrix.inverse()?;
        Ok(Pair::new(matrix, &inverse))
    }

    fn new(matrix: &Matrix, inverse: &Matrix) -> Pair
        requires { Inverses matrix.now.lines (both (rows_of matrix.now) (rows_of inverse.now)) }
        ensures lines { result.lines ≡ matrix.now.lines }
        ensures state { state_of result ≡ both (rows_of matrix.now) (rows_of inverse.now) }
    {
        let lines = matrix.lines();
        let rows = matrix.rows();
        let inverse = inverse.rows();
        Pair {
            lines,
            cost: count_both(rows, inverse),
            rows: Half::new(padded(rows), across(inverse)),
            columns: Half::new(across(rows), padded(inverse)),
        }
    }
}
