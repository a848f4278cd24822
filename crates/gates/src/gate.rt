// The interface of a gate kind.
ghost use Rattle.std.specs.Prelude.{◌≡◌, None, Decides};
ghost use Rattle.gates.specs.Gates.{Kind, Lawful};
ghost use Rattle.gates.specs.Refusals.{answer, unless_legal};

use crate::refusal::Refusal;

pub trait Gate: Copy + Eq {
    // What gates of this kind mean.
    ghost kind: { Kind Self };

    // The largest number of lines.
    fn max_lines() -> u8
        ensures { result ≡ kind.most };

    // Whether the gate is legal on n lines.
    fn is_legal(self, n: u8) -> bool
        ensures { result ≡ kind.legal n self };

    // What the gate makes of a word on n lines.
    fn act(self, n: u8, word: u64) -> u64
        ensures { result ≡ kind.act n self word };

    // Declines an illegal gate.
    final fn check(self, n: u8) -> Result<(), Refusal>
        ensures { result ≡ answer (unless_legal (kind.legal n self) None) }
    {
        if self.is_legal(n) {
            Ok(())
        } else {
            Err(Refusal::IllegalGate)
        }
    }

    ghost lawful: { Lawful kind };

    // Two gates are equal where all their fields are.
    ghost equal: { (a b : Self) → Decides (Self.eq a b) (a ≡ b) };
}
