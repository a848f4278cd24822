// What a line of a body holds: a row, an image or a gate. A reader takes the line and n, which a struct would only rename.
ghost use Rattle.std.specs.Prelude.{◌≡◌, ℕ, ◌+◌, ◌^◌, ◌<◌, ◌≤◌, nat_le, ok_or};
ghost use Rattle.gates.specs.declared.refusal.Refusal.TheVariants.{IllegalGate};
ghost use Rattle.gates.specs.Mcts.{mct as the_mcts};
ghost use Rattle.sheet.specs.Form.{bit, byte, with_line, legal, row, image, cnot, mct};

use crate::numbers::{first_number, read_numbers};
use crate::text::read_numeral;
use gates::cnot::Cnot;
use gates::gate::Gate;
use gates::mct::Mct;
use gates::refusal::Refusal;
use words::is_word;

// The word of a row, an image or a gate.
#[derive(Clone, Copy)]
pub enum Entry {
    Word(u64),
    Image(u64),
    Cnot(Cnot),
    Mct(Mct),
}

// The bit that a digit 0 or 1 writes.
fn read_bit(b: u8) -> Option<u64>
    ensures { result ≡ bit b }
{
    match b {
        b'0' => Some(0),
        b'1' => Some(1),
        _ => None,
    }
}

// The word of a row of n digits 0 or 1, column 0 first.
pub(crate) fn read_row(line: &[u8], n: u8) -> Result<u64, Refusal>
    requires { n ≤ 64 }
    ensures { result ≡ row n line.now }
{
    if line.len() != usize::from(n) {
        return Err(Refusal::WrongForm);
    }
    let mut word = 0;
    for b in line.iter().rev() {
        word = read_bit(*b).ok_or(Refusal::WrongForm)? + word * 2;
    }
    Ok(word)
}

// The image of the word `row` on n lines.
pub(crate) fn read_image(line: &[u8], n: u8, row: usize) -> Result<u64, Refusal>
    ensures { result ≡ image n row line.now }
{
    let x = u64::from(read_numeral(line).ok_or(Refusal::WrongForm)?);
    if is_word(n, x) {
        Ok(x)
    } else {
        Err(Refusal::WideRow { row })
    }
}

// A number on the line of a gate, as a byte.
fn to_byte(x: u32) -> Result<u8, Refusal>
    ensures { result ≡ ok_or (byte x) IllegalGate }
{
    u8::try_from(x).map_err(|_| Refusal::IllegalGate)
}

// A gate that is legal on n lines.
fn if_legal<G: Gate>(gate: G, n: u8) -> Result<G, Refusal>
    ensures { result ≡ legal G.Gate.kind n gate }
{
    gate.check(n)?;
    Ok(gate)
}

// The gate of a line with its control and its target.
pub(crate) fn read_cnot(line: &[u8], n: u8) -> Result<Cnot, Refusal>
    ensures { result ≡ cnot n line.now }
{
    let [control, target] = read_numbers::<2>(line).ok_or(Refusal::WrongForm)?;
    let (control, target) = (to_byte(control)?, to_byte(target)?);
    if_legal(Cnot { control, target }, n)
}

// A set with one line more. There is no such set of a line of 8 or more.
fn with_line(set: Option<u8>, line: u32) -> Option<u8>
    ensures { result ≡ with_line set line }
{
    Some(set? | 1u8.checked_shl(line)?)
}

// The controls that a gate line has so far: their set, and the least that may follow. There is no set where a control is 8 or
// more; a fault of form may still come, and is told first.
#[derive(Clone, Copy)]
struct Controls {
    set: Option<u8>,
    least: u64,
}

impl Controls {
    // Whether a control may follow: they rise strictly.
    fn admits(self, control: u32) -> bool
        ensures { result ≡ nat_le self.least control }
    {
        u64::from(control) >= self.least
    }

    // With one control more, above all others.
    fn with(self, control: u32) -> Controls
        ensures set { (w : ℕ) → w < 2 ^ self.least → self.least ≤ control → self.set ≡ byte w → result.set ≡ byte (w + 2 ^ control) }
        ensures least { result.least ≡ control + 1 }
    {
        Controls {
            set: with_line(self.set, control),
            least: u64::from(control) + 1,
        }
    }

    // The gate with these controls, if it is legal on n lines.
    fn gate(self, target: u32, n: u8) -> Result<Mct, Refusal>
        ensures { (w : ℕ) → self.set ≡ byte w → result ≡ legal the_mcts n (record { controls = w; target = target }) }
    {
        let controls = self.set.ok_or(Refusal::IllegalGate)?;
        let target = to_byte(target)?;
        if_legal(Mct { controls, target }, n)
    }
}

// The gate of a line with its controls, rising, and then its target.
pub(crate) fn read_mct(line: &[u8], n: u8) -> Result<Mct, Refusal>
    ensures { result ≡ mct n line.now }
{
    let mut controls = Controls {
        set: Some(0),
        least: 0,
    };
    let mut rest = line;
    loop {
        let (x, after) = first_number(rest).ok_or(Refusal::WrongForm)?;
        let Some(more) = after else {
            return controls.gate(x, n);
        };
        if !controls.admits(x) {
            return Err(Refusal::WrongForm);
        }
        controls = controls.with(x);
        rest = more;
    }
}
