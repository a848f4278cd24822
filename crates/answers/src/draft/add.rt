// One answer after another.
ghost use Rattle.std.specs.Prelude.{◌≡◌, [], map, length};
ghost use Rattle.answers.specs.Answers.{Answer};
ghost use Rattle.answers.specs.Drafts.{Drafts, taken, Adds, Is};

use crate::draft::Draft;
use crate::head::{AnswerKind, Head};
use crate::line::{Line, Word};
use crate::pen::Pen;
use arrayvec::ArrayVec;
use gates::cnot::Cnot;
use gates::mct::Mct;
use gates::refusal::{Refusal, enough_places};
use sheet::contents::Kind;

impl Draft {
    // A draft without an answer.
    pub fn new() -> Draft
        ensures { Drafts result [] }
    {
        Draft {
            bodies: [0; 65536],
            size: 0,
            heads: ArrayVec::new(),
        }
    }

    // One answer more, with a place among the heads and a line count that fits its head.
    fn add<L: Line>(&mut self, kind: AnswerKind, n: u8, body: &[L]) -> Result<(), Refusal>
        ensures told { result ≡ taken self.old (length body.now) }
        ensures after { (a : Answer) → Is a kind n (map (L.Line.text n) body.now) → Adds result a self.old self.new }
    {
        enough_places(1, self.heads.remaining_capacity())?;
        let count = u32::try_from(body.len()).map_err(|_| Refusal::AnswerTooLong)?;
        let start = self.size;
        let mut pen = Pen {
            out: &mut self.bodies,
            at: start,
        };
        pen.lines(n, body);
        let end = pen.at;
        self.heads.push(Head {
            kind,
            lines: n,
            count,
            size: end - start,
        });
        self.size = end;
        Ok(())
    }

    // The rows of a matrix on n lines. Each is written by its lowest n bits. A call for each kind: the type of the
    // lines does not say what they are.
    pub fn rows(&mut self, n: u8, rows: &[u64]) -> Result<(), Refusal>
        ensures told { result ≡ taken self.old (length rows.now) }
        ensures after { Adds result (Answer.rows n rows.now) self.old self.new }
    {
        self.add(AnswerKind::Item(Kind::Matrix), n, rows)
    }

    // The images of a table on n lines.
    pub fn images(&mut self, n: u8, images: &[u8]) -> Result<(), Refusal>
        ensures told { result ≡ taken self.old (length images.now) }
        ensures after { Adds result (Answer.images n images.now) self.old self.new }
    {
        self.add(AnswerKind::Item(Kind::Table), n, images)
    }

    // CNOT gates on n lines.
    pub fn cnots(&mut self, n: u8, gates: &[Cnot]) -> Result<(), Refusal>
        ensures told { result ≡ taken self.old (length gates.now) }
        ensures after { Adds result (Answer.cnots n gates.now) self.old self.new }
    {
        self.add(AnswerKind::Item(Kind::Cnots), n, gates)
    }

    // MCT gates on n lines.
    pub fn mcts(&mut self, n: u8, gates: &[Mct]) -> Result<(), Refusal>
        ensures told { result ≡ taken self.old (length gates.now) }
        ensures after { Adds result (Answer.mcts n gates.now) self.old self.new }
    {
        self.add(AnswerKind::Item(Kind::Mcts), n, gates)
    }

    // A clash on n lines: two words that share an image.
    pub fn clash(&mut self, n: u8, a: u64, b: u64) -> Result<(), Refusal>
        ensures told { result ≡ taken self.old 2 }
        ensures after { Adds result (Answer.clash n a b) self.old self.new }
    {
        self.add(AnswerKind::Clash, n, &[Word(a), Word(b)])
    }
}
