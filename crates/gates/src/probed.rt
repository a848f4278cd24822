// Gate kinds for which few words tell whether two lists of gates have the same map.
ghost use Rattle.std.specs.Prelude.{◌≡◌};
ghost use Rattle.gates.specs.Probes.{Probes, Tell};

use crate::gate::Gate;

pub trait Probed: Gate {
    // The probe words: how many there are for n lines, and which.
    ghost probes: { Probes };

    // On n lines, two lists with the same images of the probe words have the same image of every word.
    fn probe_count(n: u8) -> u16
        ensures count { result ≡ probes.count n }
        ensures tell { Tell Self.Gate.kind probes n };

    fn probe(at: u16) -> u64
        ensures { result ≡ probes.word at };
}
