// The canceller: a taker over any taker, in which two equal gates that follow each other vanish.
ghost use Rattle.std.specs.Prelude.{◌≡◌, None, MatchResult};
ghost use Rattle.takers.specs.Meanings.{accept, Fed};
ghost use Rattle.takers.specs.Cancellers.{cancelling, sends, Flushed, Cancelled};

use crate::taker::Taker;
use gates::gate::Gate;
use gates::refusal::{Refusal, enough_places};

// It holds back at most one gate, the last that it took.
#[derive(Drop)]
pub struct Canceller<T, G> {
    below: T,
    held: Option<G>,
}

impl<G: Gate, T: Taker<G>> Canceller<T, G> {
    pub fn new(below: T) -> Self
        ensures { (result.below ≡ below) × (result.held ≡ None) }
    {
        Canceller { below, held: None }
    }

    // The gate that is held back.
    pub fn held(&self) -> Option<G>
        ensures { result ≡ self.now.held }
    {
        self.held
    }

    // Sends the held gate below, or hands on the refusal.
    pub fn flush(&mut self) -> Result<(), Refusal>
        ensures answer { result ≡ sends G.Gate.kind T.Taker.meaning self.old }
        ensures after { MatchResult result (λ _. Flushed G.Gate.kind T.Taker.meaning self.old self.new) (λ _. self.new ≡ self.old) }
    {
        if let Some(held) = self.held {
            self.below.take(held)?;
            self.held = None;
        }
        Ok(())
    }

    // The taker below, and the gate that it was not sent.
    pub fn into_parts(self) -> (T, Option<G>)
        ensures { (result.0 ≡ self.below) × (result.1 ≡ self.held) }
    {
        let Canceller { below, held } = self;
        (below, held)
    }
}

impl<G: Gate, T: Taker<G>> Taker<G> for Canceller<T, G> {
    ghost meaning = { cancelling G.Gate.kind T.Taker.meaning };

    fn lines(&self) -> u8 {
        self.below.lines()
    }

    fn free(&self) -> usize {
        match self.held {
            Some(_) => self.below.free().saturating_sub(1),
            None => self.below.free(),
        }
    }

    fn take(&mut self, gate: G) -> Result<(), Refusal>
        ensures answer { result ≡ accept G.Gate.kind (cancelling G.Gate.kind T.Taker.meaning self.old) gate }
        ensures after { MatchResult result (λ _. Fed G.Gate.kind (cancelling G.Gate.kind T.Taker.meaning self.old) gate (cancelling G.Gate.kind T.Taker.meaning self.new)) (λ _. self.new ≡ self.old) }
        ensures held { MatchResult result (λ _. Cancelled G.Gate.kind T.Taker.meaning gate self.old self.new) (λ _. self.new ≡ self.old) }
    {
        gate.check(self.lines())?;
        enough_places(1, self.free())?;
        if self.held == Some(gate) {
            self.held = None;
        } else if let Some(held) = self.held.replace(gate) {
            // Below has a place for it; a gate that is illegal there would change nothing.
            let _ = self.below.take(held);
        }
        Ok(())
    }
}
