// Line 1 and the contents lines.
ghost use Rattle.std.specs.Prelude.{◌≡◌, ok_or};
ghost use Rattle.gates.specs.declared.refusal.Refusal.TheVariants.{WrongContents};
ghost use Rattle.sheet.specs.Form.{head, kind_of, most, fits, fields, contents};

use crate::numbers::read_numbers;
use crate::text::read_numeral;
use gates::refusal::Refusal;

// What a body is made of: rows, images, CNOT gates or MCT gates. The default fills the places of a vector that hold no item.
#[derive(Clone, Copy, Default)]
pub enum Kind {
    #[default]
    Matrix,
    Table,
    Cnots,
    Mcts,
}

// What a contents line tells: the kind of an item, its line count n, and how many lines its body has.
#[derive(Clone, Copy, Default)]
pub struct Contents {
    pub kind: Kind,
    pub lines: u8,
    pub count: usize,
}

// The kind that a capital names.
impl TryFrom<u8> for Kind {
    type Error = Refusal;

    ghost try_from_gives = { λ capital r. r ≡ ok_or (kind_of capital) WrongContents };

    fn try_from(capital: u8) -> Result<Kind, Refusal> {
        match capital {
            b'M' => Ok(Kind::Matrix),
            b'T' => Ok(Kind::Table),
            b'C' => Ok(Kind::Cnots),
            b'G' => Ok(Kind::Mcts),
            _ => Err(Refusal::WrongContents),
        }
    }
}

impl Kind {
    // The largest line count n.
    fn most(self) -> u32
        ensures { result ≡ most self }
    {
        match self {
            Kind::Matrix | Kind::Cnots => 64,
            Kind::Table | Kind::Mcts => 8,
        }
    }

    // Whether a body of this kind can be on n lines and have `count` lines.
    pub(crate) fn fits(self, n: u32, count: usize) -> bool
        ensures { result ≡ fits self n count }
    {
        if n < 1 || n > self.most() {
            return false;
        }
        match self {
            Kind::Matrix => count == n as usize,
            Kind::Table => count == 1 << n,
            Kind::Cnots | Kind::Mcts => true,
        }
    }
}

// The number of items, which stands on line 1.
pub(crate) fn read_head(line: &[u8]) -> Result<usize, Refusal>
    ensures { result ≡ head line.now }
{
    match read_numeral(line) {
        Some(k @ 1..=16) => Ok(k as usize),
        _ => Err(Refusal::WrongForm),
    }
}

// A capital and three numbers.
fn read_fields(line: &[u8]) -> Option<(u8, u32, u32, u32)>
    ensures { result ≡ fields line.now }
{
    let [capital, space, numbers @ ..] = line else {
        return None;
    };
    if !capital.is_ascii_uppercase() || *space != b' ' {
        return None;
    }
    let [n, count, at] = read_numbers::<3>(numbers)?;
    Some((*capital, n, count, at))
}

// What a contents line tells of an item whose body is to begin at the line `first`.
pub(crate) fn read_contents(line: &[u8], first: u64) -> Result<Contents, Refusal>
    ensures { result ≡ contents first line.now }
{
    let (capital, n, count, at) = read_fields(line).ok_or(Refusal::WrongForm)?;
    let kind = Kind::try_from(capital)?;
    if !kind.fits(n, count as usize) || u64::from(at) != first {
        return Err(Refusal::WrongContents);
    }
    Ok(Contents {
        kind,
        lines: n as u8,
        count: count as usize,
    })
}
