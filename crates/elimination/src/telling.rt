// What a matrix costs, and what a gate gains.
ghost use Rattle.std.specs.Prelude.{◌≡◌, ◌≤◌, pos, ◌-ℤ◌, IfOk};
ghost use Rattle.matrices.specs.Meanings.{matrix_meaning};
ghost use Rattle.elimination.specs.Costs.{CostTold, GainTold, Between};

use crate::addition::Addition;
use crate::pair::Pair;
use gates::cnot::Cnot;
use gates::end::End;
use gates::gate::Gate;
use gates::refusal::Refusal;
use matrices::matrix::Matrix;
use pieces::piece::Piece;

// In how many entries the matrix and its inverse differ from identity. A matrix under which two words share an image is
// declined.
pub fn cost(matrix: &Matrix) -> Result<u32, Refusal>
    ensures { CostTold (matrix_meaning matrix.now) result }
{
    let pair = Pair::of(matrix)?;
    Ok(pair.cost())
}

// The gain of a gate at an end: the cost before it less the cost after it. An illegal gate is declined, and then a matrix under
// which two words share an image.
pub fn gain(matrix: &Matrix, end: End, gate: Cnot) -> Result<i32, Refusal>
    ensures told { GainTold (matrix_meaning matrix.now) end gate result }
    ensures between { IfOk result (Between (matrix_meaning matrix.now).lines) }
{
    gate.check(matrix.lines())?;
    let mut pair = Pair::of(matrix)?;
    let before = pair.cost();
    let addition = Addition::of(end, gate);
    Ok(difference(before, pair.cost_after(addition)))
}

// What a cost falls by.
fn difference(before: u32, after: u32) -> i32
    requires before { before ≤ 8192 }
    requires after { after ≤ 8192 }
    ensures { result ≡ pos before -ℤ pos after }
{
    before as i32 - after as i32
}
