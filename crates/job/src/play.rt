// A job up to its end: the opening and a list of calls.
ghost use Rattle.std.specs.Prelude.{◌≡◌};
ghost use Rattle.books.specs.Books.{places};
ghost use Rattle.job.specs.Calls.{Opens};
ghost use Rattle.job.specs.Wholes.{Played};

use crate::playable::Playable;
use crate::step::Step;
use crate::ticket::Ticket;
use books::Book;
use gates::gate::Gate;
use gates::refusal::Refusal;
use pieces::piece::Piece;

// Opens a job on this piece and this book, and makes the calls in order, each with its answer.
pub fn play<G: Gate, P: Piece<G>, C: Playable<G, P>>(
    piece: &mut P,
    book: &mut Book<G>,
    steps: &mut [Step<C>],
) -> Result<Ticket, Refusal>
    ensures { Opens (P.Piece.meaning piece.old)
        (Played G.Gate.kind
        (C.rules (P.Piece.meaning piece.old).lines (places book.old))
        (C.gives (P.Piece.meaning piece.old).lines (places book.old))
        (P.Piece.meaning piece.old) book.old steps.old steps.new (P.Piece.meaning piece.new) book.new)
        ((piece.new ≡ piece.old) × (book.new ≡ book.old) × (steps.new ≡ steps.old)) result }
{
    let ticket = Ticket::open(piece, book)?;
    for step in steps.iter_mut() {
        let answer = step.call.make(&ticket, piece, book);
        step.answer = Some(answer);
    }
    Ok(ticket)
}
