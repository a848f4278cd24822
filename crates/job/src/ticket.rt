// A job: a piece and a book, under a ticket that says how many lines the job has.
ghost use Rattle.std.specs.Prelude.{◌≡◌, true, None, MatchResult, OnOk};
ghost use Rattle.gates.specs.Refusals.{answer};
ghost use Rattle.books.specs.Ends.{sound};
ghost use Rattle.books.specs.Books.{ends, places, Kept};
ghost use Rattle.pieces.specs.Runs.{Ran};
ghost use Rattle.job.specs.declared.call.Edit.TheVariants.{Put, TakeBack};
ghost use Rattle.job.specs.Calls.{Opens, Opened, Changes, against, Edited, RunAnswer, CallAnswer, CallDone, spoilt, handed, ended, GivenUp, DeliveryAnswer, Delivered};

use crate::call::{Call, Edit};
use crate::work::{check_book, check_lines, feed_circuit, give, take_all};
use books::Book;
use gates::end::End;
use gates::gate::Gate;
use gates::refusal::{Refusal, enough_places};
use pieces::piece::Piece;
use pieces::synthesis::Synthesis;
use takers::taker::Taker;

// Not `Drop`: a job ends by a delivery or by giving up.
pub struct Ticket {
    lines: u8,
}

// Piece and book stay two parameters: the caller lends them call by call, and any two of them are answered.
impl Ticket {
    // Opens a job on this piece. The book is emptied.
    pub fn open<G: Gate, P: Piece<G>>(piece: &P, book: &mut Book<G>) -> Result<Ticket, Refusal>
        ensures { Opens (P.Piece.meaning piece.now) (Opened (P.Piece.meaning piece.now) book.old book.new) (book.new ≡ book.old) result }
    {
        if let Some((a, b)) = piece.clash() {
            return Err(Refusal::SharedImage { a, b });
        }
        book.clear();
        Ok(Ticket {
            lines: piece.lines(),
        })
    }

    // A gate found at an end: into the piece, and last into the book's list of that end.
    pub fn put<G: Gate, P: Piece<G>>(
        &self,
        piece: &mut P,
        book: &mut Book<G>,
        end: End,
        gate: G,
    ) -> Result<(), Refusal>
        ensures answer { result ≡ answer (against G.Gate.kind self.now.lines (P.Piece.meaning piece.old).lines (places book.old) (Put end gate) (ends book.old)) }
        ensures after { Changes (Edited G.Gate.kind (Put end gate)) P.Piece.meaning result piece.old book.old piece.new book.new }
    {
        check_lines(self.lines, piece.lines())?;
        gate.check(self.lines)?;
        enough_places(1, book.free())?;
        give(piece, end, gate)?;
        book.push(end, gate)
    }

    // Strikes the last gate of an end from the book, and acts with it on the piece at that end.
    pub fn take_back<G: Gate, P: Piece<G>>(
        &self,
        piece: &mut P,
        book: &mut Book<G>,
        end: End,
    ) -> Result<(), Refusal>
        ensures answer { result ≡ answer (against G.Gate.kind self.now.lines (P.Piece.meaning piece.old).lines (places book.old) (TakeBack end) (ends book.old)) }
        ensures after { Changes (Edited G.Gate.kind (TakeBack end)) P.Piece.meaning result piece.old book.old piece.new book.new }
    {
        self.check(piece, book)?;
        let gate = book.pop(end).ok_or(Refusal::NothingFound)?;
        give(piece, end, gate)
    }

    // A gate found or taken back.
    pub fn edit<G: Gate, P: Piece<G>>(
        &self,
        piece: &mut P,
        book: &mut Book<G>,
        edit: Edit<G>,
    ) -> Result<(), Refusal>
        ensures answer { result ≡ answer (against G.Gate.kind self.now.lines (P.Piece.meaning piece.old).lines (places book.old) edit (ends book.old)) }
        ensures after { Changes (Edited G.Gate.kind edit) P.Piece.meaning result piece.old book.old piece.new book.new }
    {
        match edit {
            Edit::Put(end, gate) => self.put(piece, book, end, gate),
            Edit::TakeBack(end) => self.take_back(piece, book, end),
        }
    }

    // Brings the piece to identity by the gates of its plan.
    pub fn run<G: Gate, P: Synthesis<G>>(
        &self,
        piece: &mut P,
        book: &mut Book<G>,
    ) -> Result<(), Refusal>
        ensures answer { RunAnswer P.Synthesis.plan self.now.lines (P.Piece.meaning piece.old) book.old result }
        ensures after { Changes (λ m b m' b'. Ran G.Gate.kind P.Synthesis.plan m b m' b' × Kept b b') P.Piece.meaning result piece.old book.old piece.new book.new }
    {
        check_lines(self.lines, piece.lines())?;
        piece.run(book)
    }

    // Any of the calls, to a piece that has a run.
    pub fn call<G: Gate, P: Synthesis<G>>(
        &self,
        piece: &mut P,
        book: &mut Book<G>,
        call: Call<G>,
    ) -> Result<(), Refusal>
        ensures answer { CallAnswer G.Gate.kind P.Synthesis.plan self.now.lines call (P.Piece.meaning piece.old) book.old result }
        ensures after { Changes (CallDone G.Gate.kind P.Synthesis.plan call) P.Piece.meaning result piece.old book.old piece.new book.new }
    {
        match call {
            Call::ByHand(edit) => self.edit(piece, book, edit),
            Call::Run => self.run(piece, book),
        }
    }

    // Takes every gate back and ends the ticket.
    pub fn give_up<G: Gate, P: Piece<G>>(
        self,
        piece: &mut P,
        book: &mut Book<G>,
    ) -> Result<(), (Ticket, Refusal)>
        ensures answer { result ≡ handed self (spoilt G.Gate.kind self.lines (P.Piece.meaning piece.old).lines (ends book.old) None) }
        ensures after { Changes (GivenUp G.Gate.kind) P.Piece.meaning result piece.old book.old piece.new book.new }
    {
        let answer = self.withdraw(piece, book);
        self.end(answer)
    }

    // Feeds the taker the gates of the book in circuit order, empties the book and ends the ticket.
    pub fn deliver<G: Gate, P: Piece<G>, T: Taker<G>>(
        self,
        piece: &P,
        book: &mut Book<G>,
        taker: &mut T,
    ) -> Result<(), (Ticket, Refusal)>
        ensures answer { DeliveryAnswer G.Gate.kind self (P.Piece.meaning piece.now) (ends book.old) (T.Taker.meaning taker.old) result }
        ensures after { MatchResult result (λ _. Delivered G.Gate.kind (P.Piece.meaning piece.now) book.old book.new (T.Taker.meaning taker.old) (T.Taker.meaning taker.new)) (λ _. (book.new ≡ book.old) × (taker.new ≡ taker.old)) }
    {
        let answer = self.hand_over(piece, book, taker);
        self.end(answer)
    }

    // Declines a piece on other lines, and then a book that holds an illegal gate.
    fn check<G: Gate, P: Piece<G>>(&self, piece: &P, book: &Book<G>) -> Result<(), Refusal>
        ensures answer { result ≡ answer (spoilt G.Gate.kind self.now.lines (P.Piece.meaning piece.now).lines (ends book.now) None) }
        ensures same { OnOk result (self.now.lines ≡ (P.Piece.meaning piece.now).lines) }
        ensures legal { OnOk result (sound G.Gate.kind self.now.lines (ends book.now) ≡ true) }
    {
        check_lines(self.lines, piece.lines())?;
        check_book(book, self.lines)
    }

    // Takes every gate back.
    fn withdraw<G: Gate, P: Piece<G>>(
        &self,
        piece: &mut P,
        book: &mut Book<G>,
    ) -> Result<(), Refusal>
        ensures answer { result ≡ answer (spoilt G.Gate.kind self.now.lines (P.Piece.meaning piece.old).lines (ends book.old) None) }
        ensures after { Changes (GivenUp G.Gate.kind) P.Piece.meaning result piece.old book.old piece.new book.new }
    {
        self.check(piece, book)?;
        take_all(piece, book, End::Input);
        take_all(piece, book, End::Output);
        Ok(())
    }

    // Feeds the taker the gates of the book in circuit order, and empties the book.
    fn hand_over<G: Gate, P: Piece<G>, T: Taker<G>>(
        &self,
        piece: &P,
        book: &mut Book<G>,
        taker: &mut T,
    ) -> Result<(), Refusal>
        ensures answer { DeliveryAnswer G.Gate.kind self.now (P.Piece.meaning piece.now) (ends book.old) (T.Taker.meaning taker.old) (ended self.now result) }
        ensures after { MatchResult result (λ _. Delivered G.Gate.kind (P.Piece.meaning piece.now) book.old book.new (T.Taker.meaning taker.old) (T.Taker.meaning taker.new)) (λ _. (book.new ≡ book.old) × (taker.new ≡ taker.old)) }
    {
        check_lines(self.lines, piece.lines())?;
        check_lines(piece.lines(), taker.lines())?;
        check_book(book, self.lines)?;
        if !piece.is_identity() {
            return Err(Refusal::NotIdentity);
        }
        enough_places(book.len(), taker.free())?;
        feed_circuit(book, taker);
        book.clear();
        Ok(())
    }

    // Ends the ticket, or hands it back with the reason.
    fn end(self, answer: Result<(), Refusal>) -> Result<(), (Ticket, Refusal)>
        ensures { result ≡ ended self answer }
    {
        // Not `map_err`: its closure would hold the ticket, and only what is `Drop` may be held.
        match answer {
            Ok(()) => {
                let Ticket { lines: _ } = self;
                Ok(())
            }
            Err(why) => Err((self, why)),
        }
    }
}
