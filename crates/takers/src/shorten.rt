// Shortening a circuit: it is fed to a taker through a canceller.
ghost use Rattle.std.specs.Prelude.{◌≡◌, None, MatchResult};
ghost use Rattle.takers.specs.Meanings.{accept_all, FedAll};
ghost use Rattle.takers.specs.Cancellers.{cancelling, Sendable, Finished};

use crate::canceller::Canceller;
use crate::feed::accepts;
use crate::taker::Taker;
use gates::gate::Gate;
use gates::refusal::Refusal;

// Feeds the gates in order, all of them or none, but not those that cancel. The taker is given back.
pub fn shorten<G: Gate, T: Taker<G>>(gates: &[G], taker: T) -> (T, Result<(), Refusal>)
    ensures answer { result.1 ≡ accept_all G.Gate.kind (T.Taker.meaning taker) gates.now }
    ensures after { MatchResult result.1 (λ _. FedAll G.Gate.kind (T.Taker.meaning taker) gates.now (T.Taker.meaning result.0)) (λ _. result.0 ≡ taker) }
{
    let mut canceller = Canceller::new(taker);
    let answer = cancel_all(gates, &mut canceller);
    (finish(canceller), answer)
}

// Feeds the gates in order, all of them or none. A gate that is then held can be sent below: `feed` says nothing of gates held
// back, so this is a function of its own.
#[tactic(auto, using(crate::proofs::Feeding::next_legal, crate::proofs::Feeding::next_fits, crate::proofs::Feeding::fed_more, std::proofs::lemmas::List::take_all))]
fn cancel_all<G: Gate, T: Taker<G>>(
    gates: &[G],
    canceller: &mut Canceller<T, G>,
) -> Result<(), Refusal>
    requires { Sendable G.Gate.kind T.Taker.meaning canceller.old }
    ensures answer { result ≡ accept_all G.Gate.kind (cancelling G.Gate.kind T.Taker.meaning canceller.old) gates.now }
    ensures after { MatchResult result (λ _. FedAll G.Gate.kind (cancelling G.Gate.kind T.Taker.meaning canceller.old) gates.now (cancelling G.Gate.kind T.Taker.meaning canceller.new)) (λ _. canceller.new ≡ canceller.old) }
    ensures sendable { Sendable G.Gate.kind T.Taker.meaning canceller.new }
{
    accepts(gates, canceller)?;
    for gate in gates {
        canceller.take(*gate)?;
    }
    Ok(())
}

// The taker below, with the held gate.
fn finish<G: Gate, T: Taker<G>>(mut canceller: Canceller<T, G>) -> T
    requires { Sendable G.Gate.kind T.Taker.meaning canceller }
    ensures whole { Finished (cancelling G.Gate.kind T.Taker.meaning canceller) (T.Taker.meaning result) }
    ensures same { canceller.held ≡ None → result ≡ canceller.below }
{
    let _ = canceller.flush();
    let (below, _) = canceller.into_parts();
    below
}
