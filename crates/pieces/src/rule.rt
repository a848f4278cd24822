// The interface of a rule by which a run finds the gates that bring a piece to identity. A piece has a run where there is a
// rule for it.
ghost use Rattle.std.specs.Prelude.{◌≡◌, MatchResult};
ghost use Rattle.books.specs.Books.{Kept};
ghost use Rattle.pieces.specs.Runs.{Plan, RunTells, Ran};

use crate::piece::Piece;
use books::Book;
use gates::gate::Gate;
use gates::refusal::Refusal;

pub trait Rule<G: Gate, P: Piece<G>> {
    // The gates that a run finds, and the places that it needs.
    ghost plan: { Self → Plan G };

    // Puts the gates of the plan into the piece and the book.
    fn run(&self, piece: &mut P, book: &mut Book<G>) -> Result<(), Refusal>
        ensures answer { RunTells (plan self.now) (P.Piece.meaning piece.old) book.old result }
        ensures after { MatchResult result (λ _. Ran G.Gate.kind (plan self.now) (P.Piece.meaning piece.old) book.old (P.Piece.meaning piece.new) book.new) (λ _. (piece.new ≡ piece.old) × (book.new ≡ book.old)) }
        ensures kept { Kept book.old book.new };
}
