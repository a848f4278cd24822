// The answer sheet of a draft, written into a buffer.
ghost use Rattle.std.specs.Prelude.{◌≡◌, List, ◌++◌, length, take};
ghost use Rattle.sheet.specs.Render.{lines_text};
ghost use Rattle.answers.specs.Answers.{Answer, heading, Written};
ghost use Rattle.answers.specs.Drafts.{Drafts};
ghost use Rattle.answers.specs.Laid.{Puts};

use crate::contents::{decline, first_unfit, usable};
use crate::draft::Draft;
use crate::pen::Pen;
use sheet::fault::Fault;

impl Draft {
    // The text of the bodies, as far as there is room for it.
    fn text(&self) -> &[u8]
        ensures { result.now ≡ take self.now.size self.now.bodies }
    {
        &self.bodies[..self.size.min(self.bodies.len())]
    }

    // Line 1, the contents lines and the bodies.
    fn lay(&self, out: &mut [u8]) -> usize
        ensures { Puts out.old 0 (lines_text (heading self.now.heads.items) ++ take self.now.size self.now.bodies) result out.new }
    {
        let mut pen = Pen { out, at: 0 };
        pen.heading(&self.heads);
        pen.bytes(self.text());
        pen.at
    }

    // Writes the answer sheet into a buffer, of which it uses at most the first 65,536 bytes, and answers its length. Where an
    // answer does not fit, the bytes that it might have used are zero.
    pub fn write(&self, out: &mut [u8]) -> Result<usize, Fault>
        ensures { (xs : List Answer) → Drafts self.now xs → Written xs out.old result out.new }
    {
        let room = usable(out);
        match first_unfit(&self.heads, room) {
            Some(line) => Err(decline(out, room, line)),
            None => Ok(self.lay(out)),
        }
    }
}
