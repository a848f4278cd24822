// The interface of pieces that have a run, which finds the gates that bring the map to identity. A `Rule` says the same of a
// run that stands apart from its piece; a piece with a run of its own asks its callers for no rule.
ghost use Rattle.std.specs.Prelude.{◌≡◌, MatchResult};
ghost use Rattle.books.specs.Books.{Kept};
ghost use Rattle.pieces.specs.Runs.{Plan, RunTells, Ran};

use crate::piece::Piece;
use books::Book;
use gates::gate::Gate;
use gates::refusal::Refusal;

pub trait Synthesis<G: Gate>: Piece<G> {
    // The gates that a run finds, and the places that it needs.
    ghost plan: { Plan G };

    // Puts the gates of the plan into the piece and the book.
    fn run(&mut self, book: &mut Book<G>) -> Result<(), Refusal>
        ensures answer { RunTells plan (Self.Piece.meaning self.old) book.old result }
        ensures after { MatchResult result (λ _. Ran G.Gate.kind plan (Self.Piece.meaning self.old) book.old (Self.Piece.meaning self.new) book.new) (λ _. (self.new ≡ self.old) × (book.new ≡ book.old)) }
        ensures kept { Kept book.old book.new };
}
