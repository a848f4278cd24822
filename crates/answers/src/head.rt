// What is told of an answer before its body.
ghost use Rattle.std.specs.Prelude.{◌≡◌};
ghost use Rattle.answers.specs.Answers.{capital};

use sheet::contents::Kind;

// An item as on an order sheet, or a clash.
#[derive(Clone, Copy, Default)]
pub enum AnswerKind {
    Item(Kind),
    #[default]
    Clash,
}

// The kind of an answer, its line count n, and how many lines and bytes its body has.
#[derive(Clone, Copy, Default)]
pub struct Head {
    pub(crate) kind: AnswerKind,
    pub(crate) lines: u8,
    pub(crate) count: u32,
    pub(crate) size: usize,
}

impl AnswerKind {
    // The capital that names the kind. It is no `From`, since `kind.capital()` tells more than `kind.into()`.
    pub(crate) fn capital(self) -> u8
        ensures { result ≡ capital self }
    {
        match self {
            AnswerKind::Item(Kind::Matrix) => b'M',
            AnswerKind::Item(Kind::Table) => b'T',
            AnswerKind::Item(Kind::Cnots) => b'C',
            AnswerKind::Item(Kind::Mcts) => b'G',
            AnswerKind::Clash => b'W',
        }
    }
}
