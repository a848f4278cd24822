// The interface of the calls that are played one after the other: they go by rules on paper.
ghost use Rattle.std.specs.Prelude.{◌≡◌, ℕ, Result};
ghost use Rattle.gates.specs.declared.refusal.Refusal.{Refusal};
ghost use Rattle.gates.specs.Refusals.{answer};
ghost use Rattle.books.specs.declared.Book.{Book};
ghost use Rattle.books.specs.Books.{ends, places};
ghost use Rattle.pieces.specs.Meanings.{Meaning};
ghost use Rattle.pieces.specs.Jobs.{Job};
ghost use Rattle.job.specs.Paper.{Rules, edits, calls, RunEnds};
ghost use Rattle.job.specs.Calls.{Changes, against, Edited, CallAnswer, CallDone};
ghost use Rattle.job.specs.Steps.{Plays, KeepsWhole};
ghost use Rattle.job.specs.CallWholes.{done_whole, call_whole};

use crate::call::{Call, Edit};
use crate::ticket::Ticket;
use books::Book;
use gates::gate::Gate;
use gates::refusal::Refusal;
use pieces::piece::Piece;
use pieces::synthesis::Synthesis;

pub trait Playable<G: Gate, P: Piece<G>>: Copy {
    // The rules on paper, for a number of lines and the places of the empty book.
    ghost rules: { ℕ → ℕ → Rules Self G };

    // A fact that the rules give of each call and the job that it is made on.
    ghost gives: { ℕ → ℕ → Self → Job G → Type 0 };

    // The answer under a ticket of so many lines, for any piece and book.
    ghost answers: { ℕ → Self → Meaning → Book G → Result (Unit {0}) Refusal → Type 0 };

    // What an accepted call does to any piece and book.
    ghost does: { Self → Meaning → Book G → Meaning → Book G → Type 0 };

    // Makes the call. Where a piece and a book stand as a job on paper does, it goes by the rules.
    fn make(self, ticket: &Ticket, piece: &mut P, book: &mut Book<G>) -> Result<(), Refusal>
        ensures answer { answers ticket.now.lines self (P.Piece.meaning piece.old) book.old result }
        ensures after { Changes (does self) P.Piece.meaning result piece.old book.old piece.new book.new }
        ensures plays { Plays G.Gate.kind (rules ticket.now.lines (places book.old)) (gives ticket.now.lines (places book.old)) ticket.now.lines self (P.Piece.meaning piece.old) book.old result (P.Piece.meaning piece.new) book.new };

    // What a word comes to in the whole circuit stays.
    ghost keeps_whole: { KeepsWhole G.Gate.kind rules };
}

// Gates are found and taken back on any piece.
impl<G: Gate, P: Piece<G>> Playable<G, P> for Edit<G> {
    ghost rules = { edits G.Gate.kind };

    ghost gives = { λ _ _ _ _. Unit {0} };

    ghost answers = { λ n c m b r. r ≡ answer (against G.Gate.kind n m.lines (places b) c (ends b)) };

    ghost does = { Edited G.Gate.kind };

    ghost keeps_whole = { λ n room. done_whole G.Gate.kind G.Gate.lawful n };

    fn make(self, ticket: &Ticket, piece: &mut P, book: &mut Book<G>) -> Result<(), Refusal> {
        ticket.edit(piece, book, self)
    }
}

// Runs are made on the pieces that have one.
impl<G: Gate, P: Synthesis<G>> Playable<G, P> for Call<G> {
    ghost rules = { λ n. calls G.Gate.kind n P.Synthesis.plan };

    ghost gives = { λ n. RunEnds G.Gate.kind n P.Synthesis.plan };

    ghost answers = { CallAnswer G.Gate.kind P.Synthesis.plan };

    ghost does = { CallDone G.Gate.kind P.Synthesis.plan };

    ghost keeps_whole = { λ n room. call_whole G.Gate.kind G.Gate.lawful n P.Synthesis.plan };

    fn make(self, ticket: &Ticket, piece: &mut P, book: &mut Book<G>) -> Result<(), Refusal> {
        ticket.call(piece, book, self)
    }
}
