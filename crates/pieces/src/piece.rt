// The interface of a piece, generic in the gate kind: it means a number of lines, 1 to 64, and a map.
ghost use Rattle.std.specs.Prelude.{◌≡◌, ◌≤◌, None, Decides, MatchResult};
ghost use Rattle.words.specs.Maps.{Keeps, Identity, Clash};
ghost use Rattle.gates.specs.Refusals.{answer, unless_legal, image};
ghost use Rattle.gates.specs.declared.end.End.TheVariants.{Input, Output};
ghost use Rattle.pieces.specs.Meanings.{Meaning, Moved};

use gates::gate::Gate;
use gates::refusal::Refusal;

pub trait Piece<G: Gate> {
    ghost meaning: { Self → Meaning };

    // The number of lines, which never changes. The map is one of words on these lines.
    fn lines(&self) -> u8
        ensures count { result ≡ (meaning self.now).lines }
        ensures least { 1 ≤ result }
        ensures most { result ≤ 64 }
        ensures keeps { Keeps result (meaning self.now).map };

    fn image(&self, word: u64) -> Result<u64, Refusal>
        ensures { result ≡ image (meaning self.now).lines (meaning self.now).map word };

    // Whether every word is its own image.
    fn is_identity(&self) -> bool
        ensures { Decides result (Identity (meaning self.now).lines (meaning self.now).map) };

    // The smallest word whose image a smaller word shares, after that smaller word.
    fn clash(&self) -> Option<(u64, u64)>
        ensures { Clash (meaning self.now).lines (meaning self.now).map result };

    // The gate comes first and the old map second.
    fn input(&mut self, gate: G) -> Result<(), Refusal>
        ensures answer { result ≡ answer (unless_legal (G.Gate.kind.legal (meaning self.old).lines gate) None) }
        ensures after { MatchResult result (λ _. Moved G.Gate.kind Input gate (meaning self.old) (meaning self.new)) (λ _. self.new ≡ self.old) };

    // The old map comes first and the gate second.
    fn output(&mut self, gate: G) -> Result<(), Refusal>
        ensures answer { result ≡ answer (unless_legal (G.Gate.kind.legal (meaning self.old).lines gate) None) }
        ensures after { MatchResult result (λ _. Moved G.Gate.kind Output gate (meaning self.old) (meaning self.new)) (λ _. self.new ≡ self.old) };
}
