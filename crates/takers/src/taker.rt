// The interface of a taker: it means a number of lines, a map and a number of free places.
ghost use Rattle.std.specs.Prelude.{◌≡◌, MatchResult};
ghost use Rattle.words.specs.Maps.{Keeps};
ghost use Rattle.takers.specs.Meanings.{Meaning, accept, Fed};

use gates::gate::Gate;
use gates::refusal::Refusal;

pub trait Taker<G: Gate> {
    ghost meaning: { Self → Meaning };

    // The number of lines, which never changes. The map is one of words on these lines.
    fn lines(&self) -> u8
        ensures count { result ≡ (meaning self.now).lines }
        ensures keeps { Keeps result (meaning self.now).map };

    fn free(&self) -> usize
        ensures { result ≡ (meaning self.now).free };

    // Puts a gate behind the map.
    fn take(&mut self, gate: G) -> Result<(), Refusal>
        ensures answer { result ≡ accept G.Gate.kind (meaning self.old) gate }
        ensures after { MatchResult result (λ _. Fed G.Gate.kind (meaning self.old) gate (meaning self.new)) (λ _. self.new ≡ self.old) };
}
