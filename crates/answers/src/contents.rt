// Line 1 and the contents lines, and the first answer that does not fit.
ghost use Rattle.std.specs.Prelude.{◌≡◌, ◌+◌, ◌<◌, ◌≤◌, [], ◌∷◌, ◌++◌, length, drop, replicate, decimal};
ghost use Rattle.gates.specs.declared.refusal.Refusal.TheVariants.{AnswerTooLong};
ghost use Rattle.sheet.specs.declared.fault.Layer.TheVariants.{Work};
ghost use Rattle.sheet.specs.Fault.{fault};
ghost use Rattle.sheet.specs.Render.{lines_text};
ghost use Rattle.answers.specs.Answers.{usable, contents_line, heading};
ghost use Rattle.answers.specs.Pens.{Writes};
ghost use Rattle.answers.specs.Sums.{ends_past, unfit_heads};

use crate::head::Head;
use crate::pen::Pen;
use arrayvec::ArrayVec;
use gates::refusal::Refusal;
use sheet::fault::{Fault, Layer};

impl Pen<'_> {
    // The contents line of an answer whose body begins at the line `first`.
    #[tactic(auto, using(crate::proofs::Pens::wrote_joined))]
    fn contents_line(&mut self, head: Head, first: u64)
        ensures { Writes self.old (contents_line first head ++ 10 ∷ []) self.new }
    {
        self.byte(head.kind.capital());
        self.byte(b' ');
        self.numbers(&[head.lines.into(), head.count.into(), first]);
        self.byte(b'\n');
    }

    // Line 1.
    #[tactic(auto, using(crate::proofs::Pens::wrote_joined))]
    fn head_line(&mut self, count: usize)
        ensures { Writes self.old (decimal count ++ 10 ∷ []) self.new }
    {
        self.number(count);
        self.byte(b'\n');
    }

    // Line 1 and the contents lines.
    #[tactic(auto, using(crate::proofs::Headings::contents_steps))]
    pub(crate) fn heading(&mut self, heads: &ArrayVec<Head, 16>)
        ensures { Writes self.old (lines_text (heading heads.now.items)) self.new }
    {
        self.head_line(heads.len());
        let mut first = line_after(heads.len());
        for head in heads.iter() {
            self.contents_line(*head, first);
            first += head.count as u64;
        }
    }
}

// The line after line 1 and `count` contents lines.
fn line_after(count: usize) -> u64
    requires { count ≤ 16 }
    ensures { result ≡ count + 2 }
{
    count as u64 + 2
}

// Whether bytes that begin at a place end past the first `room` bytes. No bytes always fit.
fn ends_past(room: usize, at: usize, size: usize) -> bool
    ensures { result ≡ ends_past room at size }
{
    size > room.saturating_sub(at)
}

// The contents line of the answer at an index.
fn contents_place(index: usize) -> u64
    requires { index < 16 }
    ensures { result ≡ index + 2 }
{
    index as u64 + 2
}

// The contents line of the first answer that does not fit the room, or line 1 where there is no answer and it does not fit.
pub(crate) fn first_unfit(heads: &ArrayVec<Head, 16>, room: usize) -> Option<u64>
    requires { room ≤ 65536 }
    ensures { result ≡ unfit_heads room heads.now.items }
{
    if heads.is_empty() {
        return (room < 2).then_some(1);
    }
    let mut pen = Pen::nowhere();
    pen.heading(heads);
    let mut start = pen.at;
    let mut pen = Pen::nowhere();
    pen.head_line(heads.len());
    let mut first = line_after(heads.len());
    // A loop and no chain: nothing is known of sums that a closure changes as it goes.
    for (i, head) in heads.iter().enumerate() {
        pen.contents_line(*head, first);
        if ends_past(room, 0, pen.at) || ends_past(room, start, head.size) {
            return Some(contents_place(i));
        }
        start += head.size;
        first += head.count as u64;
    }
    None
}

// How many bytes of a buffer an answer sheet may use.
pub(crate) fn usable(out: &[u8]) -> usize
    ensures { result ≡ usable out.now }
{
    out.len().min(65_536)
}

// Declines an answer sheet for the answer with this contents line: no byte of it stays.
pub(crate) fn decline(out: &mut [u8], room: usize, line: u64) -> Fault
    requires { room ≤ length out.old }
    ensures told { result ≡ fault AnswerTooLong line Work }
    ensures zeros { out.new ≡ replicate room 0 ++ drop room out.old }
{
    out[..room].fill(0);
    Fault {
        why: Refusal::AnswerTooLong,
        line,
        layer: Layer::Work,
    }
}
