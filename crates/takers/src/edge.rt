// Small facts that the contracts give: a canceller where places run out, and memory after a gate list has ended.
ghost use Rattle.std.specs.Prelude.{◌≡◌, ◌-◌, ◌≤◌, true, length, Ok, Err};
ghost use Rattle.gates.specs.Refusals.{answer, short};
ghost use Rattle.gates.specs.declared.refusal.Refusal.TheVariants.{TooFewPlaces};

use crate::canceller::Canceller;
use crate::list::GateList;
use crate::taker::Taker;
use gates::cnot::Cnot;
use gates::gate::Gate;
use gates::refusal::Refusal;

const GATE: Cnot = Cnot {
    control: 0,
    target: 1,
};

// Over one place and over two are two examples, since each tells another fact.
// Over one place: a gate is accepted, no place is free, and the same gate is declined.
pub fn over_one_place() -> (Result<(), Refusal>, usize, Result<(), Refusal>)
    ensures { result ≡ (Ok tt, 0, Err (TooFewPlaces 1 0)) }
{
    let (first, between, second, _) = twice_over(&mut [GATE; 1]);
    (first, between, second)
}

// Over two places: a gate is accepted twice, both vanish, and two places are free.
pub fn over_two_places() -> (Result<(), Refusal>, Result<(), Refusal>, usize)
    ensures { result ≡ (Ok tt, Ok tt, 2) }
{
    let (first, _, second, after) = twice_over(&mut [GATE; 2]);
    (first, second, after)
}

// A gate list ends, and the caller's memory holds the gate that it took, and is as it was in every other place.
pub fn memory_after_a_list() -> (Cnot, Cnot)
    ensures { result ≡ (record { control = 0; target = 1 }, record { control = 9; target = 9 }) }
{
    let unwritten = Cnot {
        control: 9,
        target: 9,
    };
    let mut places = [unwritten; 2];
    {
        let mut list = GateList::new(&mut places);
        let _ = list.restart(2);
        let _ = list.take(GATE);
    }
    (places[0], places[1])
}

// A gate is fed twice to a canceller over a list with these places.
fn twice_over(places: &mut [Cnot]) -> (Result<(), Refusal>, usize, Result<(), Refusal>, usize)
    requires { 1 ≤ length places.old }
    ensures first { result.0 ≡ Ok tt }
    ensures between { result.1 ≡ length places.old - 1 }
    ensures second { result.2 ≡ answer (short 1 (length places.old - 1)) }
    ensures after { 2 ≤ length places.old → result.3 ≡ length places.old }
{
    let mut list = GateList::new(places);
    let _ = list.restart(2);
    twice(list, GATE)
}

// A gate is fed twice to a canceller over this taker. The free places are told after each time.
fn twice<G: Gate, T: Taker<G> + Drop>(
    below: T,
    gate: G,
) -> (Result<(), Refusal>, usize, Result<(), Refusal>, usize)
    requires legal { G.Gate.kind.legal (T.Taker.meaning below).lines gate ≡ true }
    requires room { 1 ≤ (T.Taker.meaning below).free }
    ensures first { result.0 ≡ Ok tt }
    ensures between { result.1 ≡ (T.Taker.meaning below).free - 1 }
    ensures second { result.2 ≡ answer (short 1 ((T.Taker.meaning below).free - 1)) }
    ensures after { 2 ≤ (T.Taker.meaning below).free → result.3 ≡ (T.Taker.meaning below).free }
{
    let mut canceller = Canceller::new(below);
    let first = canceller.take(gate);
    let between = canceller.free();
    let second = canceller.take(gate);
    (first, between, second, canceller.free())
}
