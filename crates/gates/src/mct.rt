// MCT gates: a NOT with any number of controls.
ghost use Rattle.std.specs.Prelude.{◌≡◌, ◌<◌, ◌++◌, Some, codes, decimal};
ghost use Rattle.std.proofs.Common.{rules};
ghost use Rattle.gates.specs.Mcts.{mct, mct_probes};
ghost use Rattle.gates.specs.Texts.{mct_text};
ghost use Rattle.gates.specs.MctLaws.{mct_lawful};

use crate::gate::Gate;
use crate::probed::Probed;
use std::fmt;
use words::{flipped, has_bit, is_word};

// Flips the target bit where every control bit is 1. Line i is a control where bit i of `controls` is 1.
#[derive(Clone, Copy, PartialEq, Eq, Debug)]
pub struct Mct {
    pub controls: u8,
    pub target: u8,
}

impl Gate for Mct {
    ghost kind = { mct };

    ghost lawful = { mct_lawful };

    ghost equal = { Prim.search rules };

    fn max_lines() -> u8 {
        8
    }

    fn is_legal(self, n: u8) -> bool {
        let controls = u64::from(self.controls);
        n <= 8 && is_word(n, controls) && self.target < n && !has_bit(controls, self.target)
    }

    fn act(self, n: u8, word: u64) -> u64 {
        let controls = u64::from(self.controls);
        if self.is_legal(n) && is_word(n, word) && word & controls == controls {
            flipped(word, self.target)
        } else {
            word
        }
    }
}

// On eight lines at most, every word is tried.
impl Probed for Mct {
    ghost probes = { mct_probes };

    fn probe_count(n: u8) -> u16 {
        word_count(n)
    }

    fn probe(at: u16) -> u64 {
        u64::from(at)
    }
}

// How many words there are, and none on more lines than a gate is legal on.
fn word_count(n: u8) -> u16
    ensures { result ≡ mct_probes.count n }
{
    if n <= 8 { 1 << n } else { 0 }
}

// As (controls -> target), as in (0 2 -> 1) and, without a control, (-> 1).
impl fmt::Display for Mct {
    ghost output = { λ g. Some (mct_text g) };

    fn fmt<W: fmt::Write>(&self, f: &mut fmt::Formatter<W>) -> fmt::Result {
        write!(f, "(")?;
        for line in 0..8 {
            if has_bit(u64::from(self.controls), line) {
                f.write_str(control_text(line))?;
            }
        }
        let target = self.target;
        write!(f, "-> {target})")
    }
}

// A control as it is written: its line, and a space after it.
#[tactic(auto, using(std::proofs::lemmas::Fmt::decimal_digit))]
fn control_text(line: u8) -> &'static str
    requires { line < 8 }
    ensures { result.now ≡ decimal line ++ codes " " }
{
    match line {
        0 => "0 ",
        1 => "1 ",
        2 => "2 ",
        3 => "3 ",
        4 => "4 ",
        5 => "5 ",
        6 => "6 ",
        _ => "7 ",
    }
}
