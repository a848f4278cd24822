// The fold: a taker that gives a piece its gates as output gates.
ghost use Rattle.std.specs.Prelude.{◌≡◌, MatchResult};
ghost use Rattle.gates.specs.declared.end.End.TheVariants.{Output};
ghost use Rattle.pieces.specs.Meanings.{Moved};
ghost use Rattle.takers.specs.Meanings.{accept, Fed};
ghost use Rattle.takers.specs.Folds.{folding};

use crate::taker::Taker;
use gates::gate::Gate;
use gates::refusal::Refusal;
use pieces::piece::Piece;

#[derive(Drop)]
pub struct Fold<P> {
    piece: P,
}

impl<P> Fold<P> {
    pub fn new(piece: P) -> Self
        ensures { result.piece ≡ piece }
    {
        Fold { piece }
    }

    // The piece, with the gates that the fold took.
    pub fn into_piece(self) -> P
        ensures { result ≡ self.piece }
    {
        let Fold { piece } = self;
        piece
    }
}

impl<G: Gate, P: Piece<G>> Taker<G> for Fold<P> {
    ghost meaning = { folding P.Piece.meaning };

    fn lines(&self) -> u8 {
        self.piece.lines()
    }

    fn free(&self) -> usize {
        65_535
    }

    fn take(&mut self, gate: G) -> Result<(), Refusal>
        ensures answer { result ≡ accept G.Gate.kind (folding P.Piece.meaning self.old) gate }
        ensures after { MatchResult result (λ _. Fed G.Gate.kind (folding P.Piece.meaning self.old) gate (folding P.Piece.meaning self.new)) (λ _. self.new ≡ self.old) }
        ensures piece { MatchResult result (λ _. Moved G.Gate.kind Output gate (P.Piece.meaning self.old.piece) (P.Piece.meaning self.new.piece)) (λ _. self.new ≡ self.old) }
    {
        self.piece.output(gate)
    }
}
