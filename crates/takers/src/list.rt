// The gate list: a taker that keeps its gates in the caller's memory.
ghost use Rattle.std.specs.Prelude.{◌≡◌, ◌<◌, ◌≤◌, length, MatchResult};
ghost use Rattle.gates.specs.Refusals.{image};
ghost use Rattle.takers.specs.Meanings.{accept, Fed};

use crate::taker::Taker;
use gates::circuit;
use gates::gate::Gate;
use gates::probed::Probed;
use gates::refusal::{Refusal, enough_places};
use words::is_word;

// The first `used` places hold the gates, in order.
#[derive(Drop)]
pub struct GateList<'a, G> {
    places: &'a mut [G],
    used: usize,
    lines: u8,
    ghost fits: { used ≤ length places.now },
}

impl<'a, G: Gate> GateList<'a, G> {
    ghost use Rattle.takers.specs.GateLists.{held, list_meaning, parts, fresh, restarted, restarts, with_gate};

    // An empty list on 1 line. All of the memory is places of the list.
    pub fn new(places: &'a mut [G]) -> Self
        ensures { parts result ≡ fresh places.entry }
    {
        GateList {
            places,
            used: 0,
            lines: 1,
        }
    }

    // Empties the list and sets its number of lines.
    pub fn restart(&mut self, lines: u8) -> Result<(), Refusal>
        ensures answer { result ≡ restarts G.Gate.kind lines }
        ensures after { MatchResult result (λ _. parts self.new ≡ restarted lines self.old) (λ _. self.new ≡ self.old) }
    {
        if !(1..=G::max_lines()).contains(&lines) {
            return Err(Refusal::WrongSize);
        }
        self.used = 0;
        self.lines = lines;
        Ok(())
    }

    // The gates, in order.
    pub fn gates(&self) -> &[G]
        ensures { result.now ≡ held self.now }
    {
        &self.places[..self.used]
    }

    // What the gates make of a word.
    pub fn image(&self, word: u64) -> Result<u64, Refusal>
        ensures { result ≡ image self.now.lines (list_meaning G.Gate.kind self.now).map word }
    {
        if !is_word(self.lines, word) {
            return Err(Refusal::WideWord);
        }
        Ok(circuit::image(self.gates(), self.lines, word))
    }

    // Writes a gate at the first unused place.
    fn push(&mut self, gate: G)
        requires { self.old.used < length self.old.places.now }
        ensures { parts self.new ≡ with_gate gate self.old }
    {
        self.places[self.used] = gate;
        self.used += 1;
    }
}

impl<'a, G: Probed> GateList<'a, G> {
    ghost use Rattle.takers.specs.GateLists.{list_meaning, SameMap};

    // Whether two lists have the same image of every word.
    pub fn same_map(&self, other: &GateList<G>) -> Result<bool, Refusal>
        ensures { SameMap (list_meaning G.Gate.kind self.now) (list_meaning G.Gate.kind other.now) result }
    {
        if self.lines != other.lines {
            return Err(Refusal::LinesDiffer);
        }
        Ok(circuit::same_map(self.gates(), other.gates(), self.lines))
    }
}

impl<'a, G: Gate> Taker<G> for GateList<'a, G> {
    ghost use Rattle.takers.specs.GateLists.{list_meaning, Pushed};

    ghost meaning = { list_meaning G.Gate.kind };

    #[tactic(auto, using(gates::specs::CircuitLaws::through_keeps))]
    fn lines(&self) -> u8 {
        self.lines
    }

    fn free(&self) -> usize {
        self.places.len() - self.used
    }

    fn take(&mut self, gate: G) -> Result<(), Refusal>
        ensures answer { result ≡ accept G.Gate.kind (list_meaning G.Gate.kind self.old) gate }
        ensures after { MatchResult result (λ _. Fed G.Gate.kind (list_meaning G.Gate.kind self.old) gate (list_meaning G.Gate.kind self.new)) (λ _. self.new ≡ self.old) }
        ensures gates { MatchResult result (λ _. Pushed gate self.old self.new) (λ _. self.new ≡ self.old) }
    {
        gate.check(self.lines)?;
        enough_places(1, self.free())?;
        self.push(gate);
        Ok(())
    }
}
