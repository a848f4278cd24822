// The run of a matrix.
ghost use Rattle.std.specs.Prelude.{◌≡◌, ◌≤◌};
ghost use Rattle.clearing.specs.Laws.{room};
ghost use Rattle.clearing.specs.Plans.{matrix_plan};

use crate::pair::Pair;
use books::Book;
use gates::cnot::Cnot;
use gates::refusal::{Refusal, enough_places};
use matrices::matrix::Matrix;
use pieces::piece::Piece;
use pieces::rule::Rule;

// Clears line after line.
#[derive(Clone, Copy)]
pub struct Elimination;

impl Rule<Cnot, Matrix> for Elimination {
    ghost plan = { λ _. matrix_plan };

    fn run(&self, matrix: &mut Matrix, book: &mut Book<Cnot>) -> Result<(), Refusal> {
        let mut pair = Pair::of(matrix)?;
        let lines = matrix.lines();
        enough_places(places_needed(lines), book.free())?;
        pair.run(book);
        *matrix = Matrix::identity(lines)?;
        Ok(())
    }
}

// A run on n lines needs (n - 1)(2n + 1) places.
fn places_needed(lines: u8) -> usize
    requires least { 1 ≤ lines }
    requires most { lines ≤ 64 }
    ensures { result ≡ room lines }
{
    let n = lines as usize;
    (n - 1) * (2 * n + 1)
}
