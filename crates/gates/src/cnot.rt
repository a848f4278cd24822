// CNOT gates: one control and one target.
ghost use Rattle.std.specs.Prelude.{◌≡◌, Some};
ghost use Rattle.std.proofs.Common.{rules};
ghost use Rattle.gates.specs.Cnots.{cnot, cnot_probes};
ghost use Rattle.gates.specs.Texts.{cnot_text};
ghost use Rattle.gates.specs.CnotLaws.{cnot_lawful};

use crate::gate::Gate;
use crate::probed::Probed;
use std::fmt;
use words::{flipped, has_bit, is_word, unit};

// Flips the target bit where the control bit is 1.
#[derive(Clone, Copy, PartialEq, Eq, Debug)]
pub struct Cnot {
    pub control: u8,
    pub target: u8,
}

impl Gate for Cnot {
    ghost kind = { cnot };

    ghost lawful = { cnot_lawful };

    ghost equal = { Prim.search rules };

    fn max_lines() -> u8 {
        64
    }

    fn is_legal(self, n: u8) -> bool {
        n <= 64 && self.control < n && self.target < n && self.control != self.target
    }

    fn act(self, n: u8, word: u64) -> u64 {
        if self.is_legal(n) && is_word(n, word) && has_bit(word, self.control) {
            flipped(word, self.target)
        } else {
            word
        }
    }
}

// A list of CNOT gates is linear, so the unit words tell.
impl Probed for Cnot {
    ghost probes = { cnot_probes };

    fn probe_count(n: u8) -> u16 {
        unit_count(n)
    }

    fn probe(at: u16) -> u64 {
        if at < 64 { unit(at as u8) } else { 0 }
    }
}

// One unit word for each line, and none on more lines than a gate is legal on.
fn unit_count(n: u8) -> u16
    ensures { result ≡ cnot_probes.count n }
{
    if n <= 64 { u16::from(n) } else { 0 }
}

// As (control, target).
impl fmt::Display for Cnot {
    ghost output = { λ g. Some (cnot_text g) };

    fn fmt<W: fmt::Write>(&self, f: &mut fmt::Formatter<W>) -> fmt::Result {
        let control = self.control;
        let target = self.target;
        write!(f, "({control}, {target})")
    }
}
