// A whole job, from its opening to its end.
ghost use Rattle.std.specs.Prelude.{◌≡◌};
ghost use Rattle.books.specs.Books.{places};
ghost use Rattle.job.specs.Calls.{Opens};
ghost use Rattle.job.specs.Wholes.{Conducted};

use crate::play::play;
use crate::playable::Playable;
use crate::step::Step;
use crate::ticket::Ticket;
use books::Book;
use gates::gate::Gate;
use gates::refusal::Refusal;
use pieces::piece::Piece;
use takers::taker::Taker;

#[derive(Clone, Copy)]
pub enum Ending {
    Deliver,
    GiveUp,
}

// Opens a job on this piece and this book, makes the calls in order, each with its answer, and ends the job. A declined
// delivery hands the ticket back.
pub fn conduct<G: Gate, P: Piece<G>, C: Playable<G, P>, T: Taker<G>>(
    piece: &mut P,
    book: &mut Book<G>,
    steps: &mut [Step<C>],
    ending: Ending,
    taker: &mut T,
) -> Result<Result<(), (Ticket, Refusal)>, Refusal>
    ensures { Opens (P.Piece.meaning piece.old)
        (Conducted G.Gate.kind
        (C.rules (P.Piece.meaning piece.old).lines (places book.old))
        (C.gives (P.Piece.meaning piece.old).lines (places book.old))
        (P.Piece.meaning piece.old) book.old steps.old steps.new (P.Piece.meaning piece.new) book.new
        T.Taker.meaning taker.old taker.new ending)
        ((piece.new ≡ piece.old) × (book.new ≡ book.old) × (steps.new ≡ steps.old) × (taker.new ≡ taker.old)) result }
{
    let ticket = play(piece, book, steps)?;
    match ending {
        Ending::Deliver => Ok(ticket.deliver(piece, book, taker)),
        Ending::GiveUp => Ok(ticket.give_up(piece, book)),
    }
}
