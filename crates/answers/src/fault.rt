// The line of a fault.
ghost use Rattle.std.specs.Prelude.{◌≡◌};
ghost use Rattle.answers.specs.Answers.{fault_text};
ghost use Rattle.answers.specs.Laid.{Puts};
ghost use Rattle.answers.specs.Pens.{Writes};

use crate::pen::Pen;
use sheet::fault::Fault;

impl Pen<'_> {
    // The number of a fault's reason, its line and its layer.
    #[tactic(auto, using(crate::proofs::Faults::wrote_fault))]
    fn fault(&mut self, fault: Fault)
        ensures { Writes self.old (fault_text fault) self.new }
    {
        self.bytes(b"F ");
        self.numbers(&[fault.why.number().into(), fault.line]);
        self.byte(b' ');
        self.bytes(fault.layer.name().as_bytes());
        self.byte(b'\n');
    }
}

// Lays the line of a fault into a buffer from its start, and answers the line's length. Bytes past the buffer's end are left
// out.
pub fn write_fault(fault: Fault, out: &mut [u8]) -> usize
    ensures { Puts out.old 0 (fault_text fault) result out.new }
{
    let mut pen = Pen { out, at: 0 };
    pen.fault(fault);
    pen.at
}
