// Clearing the lines of a matrix: what it means, and why it ends at identity.
#![tactic(auto)]

ghost use Rattle.clearing.specs.Example.{Line0};
ghost use Rattle.clearing.specs.Laws.{ClearSolves, RunEnds};

// Clearing an unsolved line solves it and unsolves none, with at most 4m - 3 gates where m lines were unsolved.
pub fn clear_solves()
    ensures { ClearSolves }
{}

// A run ends at identity with at most (n - 1)(2n + 1) gates.
pub fn run_ends()
    ensures { RunEnds }
{}

// Line 0 of a worked matrix.
pub fn line_0()
    ensures { Line0 }
{}
