// Circuits: gates in the order in which a word passes them.
ghost use Rattle.std.specs.Prelude.{◌≡◌, ◌==◌, None, Decides};
ghost use Rattle.words.specs.Maps.{Same};
ghost use Rattle.gates.specs.Circuits.{through, all_legal};
ghost use Rattle.gates.specs.Refusals.{answer, unless_legal};

use crate::gate::Gate;
use crate::probed::Probed;
use crate::refusal::Refusal;

// Whether all gates are legal on n lines.
pub fn all_legal<G: Gate>(gates: &[G], n: u8) -> bool
    ensures { result ≡ all_legal G.Gate.kind n gates.now }
{
    // Every gate is looked at, since a loop without an early exit runs faster.
    let mut legal = true;
    for gate in gates {
        legal &= gate.is_legal(n);
    }
    legal
}

// Declines a circuit with an illegal gate.
pub fn check<G: Gate>(gates: &[G], n: u8) -> Result<(), Refusal>
    ensures { result ≡ answer (unless_legal (all_legal G.Gate.kind n gates.now) None) }
{
    if all_legal(gates, n) {
        Ok(())
    } else {
        Err(Refusal::IllegalGate)
    }
}

// What the gates make of a word on n lines.
pub fn image<G: Gate>(gates: &[G], n: u8, word: u64) -> u64
    ensures { result ≡ through G.Gate.kind n gates.now word }
{
    gates.iter().fold(word, |image, gate| gate.act(n, image))
}

// Whether two circuits have the same image of every word on n lines, told by the probe words.
pub fn same_map<G: Probed>(a: &[G], b: &[G], n: u8) -> bool
    ensures { Decides result (Same n (through G.Gate.kind n a.now) (through G.Gate.kind n b.now)) }
{
    (0..G::probe_count(n)).all(|at| same_image(a, b, n, G::probe(at)))
}

// Whether two circuits have the same image of this word.
fn same_image<G: Gate>(a: &[G], b: &[G], n: u8, word: u64) -> bool
    ensures { result ≡ (through G.Gate.kind n a.now word == through G.Gate.kind n b.now word) }
{
    image(a, n, word) == image(b, n, word)
}
