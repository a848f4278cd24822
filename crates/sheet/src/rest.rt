// What is left of a text, as its lines are read one by one.
ghost use Rattle.std.specs.Prelude.{◌≡◌, ◌+◌, ◌^◌, ◌<◌, [], ◌∷◌, MatchResult};
ghost use Rattle.gates.specs.declared.refusal.Refusal.TheVariants.{WrongForm};
ghost use Rattle.sheet.specs.Text.{pieces};
ghost use Rattle.sheet.specs.Fault.{fault};

use crate::fault::{Fault, Layer};
use crate::text::split_once;
use gates::refusal::Refusal;

// The lines that are left, and the number of the first. That the number fits is asked by each that reads on, and no ghost field:
// a body may begin at any line number.
#[derive(Clone, Copy)]
pub(crate) struct Rest<'a> {
    pub(crate) lines: &'a [u8],
    pub(crate) number: u64,
}

impl<'a> Rest<'a> {
    // The next line, and what is left after it; the line is unfinished where it has no end.
    pub(crate) fn next_line(self, layer: Layer) -> Result<(&'a [u8], Rest<'a>), Fault>
        requires { self.number + 1 < 2 ^ 64 }
        ensures { MatchResult result (λ p. (pieces 10 self.entry.lines.now ≡ p.0.now ∷ pieces 10 p.1.lines.now) × (p.1.number ≡ self.entry.number + 1)) (λ e. (e ≡ fault WrongForm self.entry.number layer) × (pieces 10 self.entry.lines.now ≡ self.entry.lines.now ∷ [])) }
    {
        let unfinished = Fault::at(Refusal::WrongForm, self.number, layer);
        let (line, lines) = split_once(self.lines, b'\n').ok_or(unfinished)?;
        let number = self.number + 1;
        Ok((line, Rest { lines, number }))
    }
}
