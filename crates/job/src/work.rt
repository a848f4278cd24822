// The work that calls of a job share.
ghost use Rattle.std.specs.Prelude.{◌≡◌, ◌≤◌, true, not, None, OnOk, ◌==◌};
ghost use Rattle.std.specs.List.{slice_get};
ghost use Rattle.words.specs.Maps.{Same};
ghost use Rattle.gates.specs.declared.refusal.Refusal.TheVariants.{LinesDiffer};
ghost use Rattle.gates.specs.Refusals.{answer, first, unless_legal};
ghost use Rattle.books.specs.Ends.{circuit, emptied, held, sound};
ghost use Rattle.books.specs.Books.{ends, Kept};
ghost use Rattle.pieces.specs.Meanings.{Moved};
ghost use Rattle.pieces.specs.Jobs.{whole, shown};
ghost use Rattle.takers.specs.Meanings.{Fed, FedAll};

use books::Book;
use gates::circuit;
use gates::end::End;
use gates::gate::Gate;
use gates::refusal::Refusal;
use pieces::piece::Piece;
use takers::taker::Taker;

// Gives a piece a gate at an end. An illegal gate, which has no effect, is declined.
#[tactic(auto, using(crate::proofs::Giving::given))]
pub(crate) fn give<G: Gate, P: Piece<G>>(piece: &mut P, end: End, gate: G) -> Result<(), Refusal>
    ensures answer { result ≡ answer (unless_legal (G.Gate.kind.legal (P.Piece.meaning piece.old).lines gate) None) }
    ensures moved { Moved G.Gate.kind end gate (P.Piece.meaning piece.old) (P.Piece.meaning piece.new) }
{
    match end {
        End::Input => piece.input(gate),
        End::Output => piece.output(gate),
    }
}

// Declines two line counts that differ.
pub(crate) fn check_lines(a: u8, b: u8) -> Result<(), Refusal>
    ensures answer { result ≡ answer (first (not (a == b)) LinesDiffer None) }
    ensures same { OnOk result (a ≡ b) }
{
    if a == b {
        Ok(())
    } else {
        Err(Refusal::LinesDiffer)
    }
}

// Declines a book that holds a gate illegal on n lines.
#[tactic(auto, using(books::proofs::Sound::legal_reverse))]
pub(crate) fn check_book<G: Gate>(book: &Book<G>, n: u8) -> Result<(), Refusal>
    ensures answer { result ≡ answer (unless_legal (sound G.Gate.kind n (ends book.now)) None) }
    ensures legal { OnOk result (sound G.Gate.kind n (ends book.now) ≡ true) }
{
    let (inputs, outputs) = book.as_slices();
    circuit::check(inputs, n)?;
    circuit::check(outputs, n)
}

// Takes back every gate of an end. Their acting twice undoes them, so what a word comes to in the whole circuit stays.
pub(crate) fn take_all<G: Gate, P: Piece<G>>(piece: &mut P, book: &mut Book<G>, end: End)
    ensures ends { ends book.new ≡ emptied end (ends book.old) }
    ensures whole { Same (P.Piece.meaning piece.old).lines (whole G.Gate.kind (P.Piece.meaning piece.old).lines (shown (P.Piece.meaning piece.new) book.new)) (whole G.Gate.kind (P.Piece.meaning piece.old).lines (shown (P.Piece.meaning piece.old) book.old)) }
    ensures lines { (P.Piece.meaning piece.new).lines ≡ (P.Piece.meaning piece.old).lines }
    ensures kept { Kept book.old book.new }
{
    while let Some(gate) = book.pop(end) {
        let _ = give(piece, end, gate);
    }
}

// Feeds the gates of a book in circuit order. They are legal, and the taker has a place for each. By position, so that the step
// that finds a gate stands in a function of its own.
pub(crate) fn feed_circuit<G: Gate, T: Taker<G>>(book: &Book<G>, taker: &mut T)
    requires legal { sound G.Gate.kind (T.Taker.meaning taker.old).lines (ends book.now) ≡ true }
    requires room { held (ends book.now) ≤ (T.Taker.meaning taker.old).free }
    ensures { FedAll G.Gate.kind (T.Taker.meaning taker.old) (circuit (ends book.now)) (T.Taker.meaning taker.new) }
{
    for at in 0..book.len() {
        if let Some(gate) = next_gate(book, at) {
            feed_one(gate, taker);
        }
    }
}

// The gate to be fed after so many others.
fn next_gate<G: Gate>(book: &Book<G>, at: usize) -> Option<G>
    ensures { result ≡ slice_get (circuit (ends book.now)) at }
{
    book.gate(at)
}

// A legal gate with a place is taken.
#[tactic(auto, using(gates::proofs::RefusalLaws::short_none))]
fn feed_one<G: Gate, T: Taker<G>>(gate: G, taker: &mut T)
    requires legal { G.Gate.kind.legal (T.Taker.meaning taker.old).lines gate ≡ true }
    requires room { 1 ≤ (T.Taker.meaning taker.old).free }
    ensures { Fed G.Gate.kind (T.Taker.meaning taker.old) gate (T.Taker.meaning taker.new) }
{
    let _ = taker.take(gate);
}
