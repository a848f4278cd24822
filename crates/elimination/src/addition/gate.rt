// An addition and its gate, each told by the other.
ghost use Rattle.std.specs.Prelude.{◌≡◌, ◌<◌, ◌≢◌};
ghost use Rattle.elimination.specs.Additions.{at_end, placed};

use super::Addition;
use crate::placed::Placed;
use gates::cnot::Cnot;
use gates::end::End;

impl Addition {
    pub(crate) fn new(end: End, from: u8, to: u8) -> Addition
        requires from { from < 64 }
        requires to { to < 64 }
        requires apart { from ≢ to }
        ensures end { result.end ≡ end }
        ensures from { result.from ≡ from }
        ensures to { result.to ≡ to }
    {
        Addition { end, from, to }
    }

    // The addition that a gate makes at an end.
    pub(crate) fn of(end: End, gate: Cnot) -> Addition
        requires control { gate.control < 64 }
        requires target { gate.target < 64 }
        requires apart { gate.control ≢ gate.target }
        ensures { placed result ≡ (end, gate) }
    {
        match end {
            End::Output => Addition::new(end, gate.control, gate.target),
            End::Input => Addition::new(end, gate.target, gate.control),
        }
    }

    // The gate that makes it.
    pub(crate) fn gate(self) -> Placed
        ensures { at_end result ≡ placed self }
    {
        let (control, target) = match self.end {
            End::Output => (self.from, self.to),
            End::Input => (self.to, self.from),
        };
        Placed {
            end: self.end,
            gate: Cnot { control, target },
        }
    }
}
