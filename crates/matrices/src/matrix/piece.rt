// A matrix as a piece.
ghost use Rattle.std.specs.Prelude.{◌≡◌, true, None, MatchResult};
ghost use Rattle.gates.specs.Cnots.{cnot};
ghost use Rattle.gates.specs.Refusals.{answer, unless_legal};
ghost use Rattle.gates.specs.declared.end.End.TheVariants.{Input, Output};
ghost use Rattle.pieces.specs.Meanings.{Moved};
ghost use Rattle.matrices.specs.Matrices.{image, add_row, add_column};
ghost use Rattle.matrices.specs.Meanings.{rows_of, matrix_meaning};

use super::Matrix;
use super::rows::{add_column, add_row, are_units, shared};
use gates::cnot::Cnot;
use gates::gate::Gate;
use gates::refusal::Refusal;
use pieces::piece::Piece;
use words::is_word;

impl Piece<Cnot> for Matrix {
    ghost meaning = { matrix_meaning };

    fn lines(&self) -> u8 {
        self.lines
    }

    fn image(&self, word: u64) -> Result<u64, Refusal> {
        if !is_word(self.lines, word) {
            return Err(Refusal::WideWord);
        }
        Ok(self.image_of(word))
    }

    // Whether the rows are the unit rows.
    fn is_identity(&self) -> bool {
        are_units(self.rows())
    }

    fn clash(&self) -> Option<(u64, u64)> {
        self.first_clash()
    }

    // The interface has a method for each end; what they share is the check.
    fn input(&mut self, gate: Cnot) -> Result<(), Refusal>
        ensures answer { result ≡ answer (unless_legal (cnot.legal self.old.lines gate) None) }
        ensures after { MatchResult result (λ _. Moved cnot Input gate (matrix_meaning self.old) (matrix_meaning self.new)) (λ _. self.new ≡ self.old) }
        ensures rows { MatchResult result (λ _. rows_of self.new ≡ add_column gate (rows_of self.old)) (λ _. self.new ≡ self.old) }
    {
        gate.check(self.lines)?;
        self.put_input(gate);
        Ok(())
    }

    fn output(&mut self, gate: Cnot) -> Result<(), Refusal>
        ensures answer { result ≡ answer (unless_legal (cnot.legal self.old.lines gate) None) }
        ensures after { MatchResult result (λ _. Moved cnot Output gate (matrix_meaning self.old) (matrix_meaning self.new)) (λ _. self.new ≡ self.old) }
        ensures rows { MatchResult result (λ _. rows_of self.new ≡ add_row gate (rows_of self.old)) (λ _. self.new ≡ self.old) }
    {
        gate.check(self.lines)?;
        self.put_output(gate);
        Ok(())
    }
}

impl Matrix {
    // The image of a word, bit r by the ones that it shares with row r.
    pub(super) fn image_of(&self, word: u64) -> u64
        ensures { result ≡ image (rows_of self.now) word }
    {
        let mut image = 0;
        for (r, row) in self.rows().iter().enumerate() {
            image |= shared(*row, word) << r;
        }
        image
    }

    // The gate comes first: column `target` is added to column `control`. Whether a gate is legal on these lines depends on
    // both, so no type can say it.
    fn put_input(&mut self, gate: Cnot)
        requires { cnot.legal self.old.lines gate ≡ true }
        ensures lines { self.new.lines ≡ self.old.lines }
        ensures rows { rows_of self.new ≡ add_column gate (rows_of self.old) }
        ensures after { Moved cnot Input gate (matrix_meaning self.old) (matrix_meaning self.new) }
    {
        add_column(&mut self.rows, self.lines, gate);
    }

    // The gate comes last: row `control` is added to row `target`.
    pub(super) fn put_output(&mut self, gate: Cnot)
        requires { cnot.legal self.old.lines gate ≡ true }
        ensures lines { self.new.lines ≡ self.old.lines }
        ensures rows { rows_of self.new ≡ add_row gate (rows_of self.old) }
        ensures after { Moved cnot Output gate (matrix_meaning self.old) (matrix_meaning self.new) }
    {
        add_row(&mut self.rows, gate);
    }
}
