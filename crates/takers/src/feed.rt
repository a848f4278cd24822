// Feeding a circuit to a taker.
ghost use Rattle.std.specs.Prelude.{◌≡◌, ◌≤◌, true, length, MatchResult};
ghost use Rattle.gates.specs.Circuits.{all_legal};
ghost use Rattle.takers.specs.Meanings.{accept_all, Fed, FedAll};

use crate::taker::Taker;
use gates::circuit;
use gates::gate::Gate;
use gates::refusal::{Refusal, enough_places};

// Feeds the gates in order, all of them or none.
#[tactic(auto, using(crate::proofs::Feeding::next_legal, crate::proofs::Feeding::next_fits, crate::proofs::Feeding::fed_more, std::proofs::lemmas::List::take_all))]
pub fn feed<G: Gate, T: Taker<G>>(gates: &[G], taker: &mut T) -> Result<(), Refusal>
    ensures answer { result ≡ accept_all G.Gate.kind (T.Taker.meaning taker.old) gates.now }
    ensures after { MatchResult result (λ _. FedAll G.Gate.kind (T.Taker.meaning taker.old) gates.now (T.Taker.meaning taker.new)) (λ _. taker.new ≡ taker.old) }
{
    accepts(gates, taker)?;
    for gate in gates {
        taker.take(*gate)?;
    }
    Ok(())
}

// Whether a taker is sure to take all gates.
pub fn accepts<G: Gate, T: Taker<G>>(gates: &[G], taker: &T) -> Result<(), Refusal>
    ensures { result ≡ accept_all G.Gate.kind (T.Taker.meaning taker.now) gates.now }
{
    circuit::check(gates, taker.lines())?;
    enough_places(gates.len(), taker.free())
}
