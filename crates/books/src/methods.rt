// What a book tells, and how gates come and go at its ends.
ghost use Rattle.std.specs.Prelude.{◌≡◌, ◌≤◌, length, reverse, None, MatchResult};
ghost use Rattle.std.specs.List.{slice_get};
ghost use Rattle.gates.specs.Refusals.{answer, short};
ghost use Rattle.books.specs.Ends.{empty, found, held, circuit, strike, last};
ghost use Rattle.books.specs.Books.{places, free, ends, Kept};
ghost use Rattle.books.specs.Places.{Pushed};

use crate::Book;
use gates::end::End;
use gates::refusal::{Refusal, enough_places};

const MOST: usize = 16384;

impl<'a, G: Copy> Book<'a, G> {
    // An empty book over this memory.
    #[tactic(auto, using(crate::proofs::BookLaws::ends_none))]
    pub fn new(memory: &'a mut [G]) -> Self
        ensures ends { ends result ≡ empty }
        ensures memory { result.places ≡ memory.entry }
    {
        Book {
            places: memory,
            inputs: 0,
            outputs: 0,
        }
    }

    // How many places there are in all.
    pub fn places(&self) -> usize
        ensures { result ≡ places self.now }
    {
        self.places.len().min(MOST)
    }

    // How many gates were found at an end.
    #[tactic(auto, using(crate::proofs::BookLaws::ins_count, crate::proofs::BookLaws::outs_count))]
    pub fn count(&self, end: End) -> usize
        ensures is { result ≡ length (found end (ends self.now)) }
        ensures fits { result ≤ 16384 }
    {
        match end {
            End::Input => self.inputs,
            End::Output => self.outputs,
        }
    }

    // How many gates there are in all.
    pub fn len(&self) -> usize
        ensures { result ≡ held (ends self.now) }
    {
        self.count(End::Input) + self.count(End::Output)
    }

    // How many places are free.
    pub fn free(&self) -> usize
        ensures { result ≡ free self.now }
    {
        self.places() - self.len()
    }

    // The gate at a position in circuit order, or none past the end.
    #[tactic(auto, using(crate::proofs::Positions::get_first, crate::proofs::Positions::get_second))]
    pub fn gate(&self, position: usize) -> Option<G>
        ensures { result ≡ slice_get (circuit (ends self.now)) position }
    {
        let (inputs, outputs) = self.as_slices();
        if position < inputs.len() {
            Some(inputs[position])
        } else {
            outputs.get(position - inputs.len()).copied()
        }
    }

    // One gate more at an end. What stays of the memory is said by each call that writes.
    #[tactic(auto, using(crate::proofs::BookLaws::room))]
    pub fn push(&mut self, end: End, gate: G) -> Result<(), Refusal>
        ensures answer { result ≡ answer (short 1 (free self.old)) }
        ensures after { MatchResult result (λ _. Pushed end gate self.old self.new) (λ _. self.new ≡ self.old) }
        ensures kept { Kept self.old self.new }
    {
        enough_places(1, self.free())?;
        let at = self.place(end);
        self.grow(end);
        self.places[at] = gate;
        Ok(())
    }

    // Strikes the gate that was found last at an end, and tells it.
    #[tactic(auto, using(crate::proofs::EndLaws::strike_none, crate::proofs::BookLaws::tally_last))]
    pub fn pop(&mut self, end: End) -> Option<G>
        ensures gate { result ≡ last (found end (ends self.old)) }
        ensures ends { ends self.new ≡ strike end (ends self.old) }
        ensures places { self.new.places ≡ self.old.places }
        ensures kept { Kept self.old self.new }
        ensures none { result ≡ None → self.new ≡ self.old }
    {
        let gate = self.last(end)?;
        self.shrink(end);
        Some(gate)
    }

    // Strikes all gates.
    #[tactic(auto, using(crate::proofs::BookLaws::ends_none, crate::proofs::KeptLaws::kept_same))]
    pub fn clear(&mut self)
        ensures ends { ends self.new ≡ empty }
        ensures places { self.new.places ≡ self.old.places }
        ensures kept { Kept self.old self.new }
    {
        self.inputs = 0;
        self.outputs = 0;
    }
}
