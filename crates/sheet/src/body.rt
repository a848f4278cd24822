// The body of an item: its lines, and what they hold.
ghost use Rattle.std.specs.Prelude.{◌≡◌, ◌+◌, ◌^◌, ◌<◌, ◌≤◌, [], ◌∷◌, MatchResult, slice_set};
ghost use Rattle.gates.specs.declared.refusal.Refusal.TheVariants.{WrongForm};
ghost use Rattle.sheet.specs.declared.fault.Layer.TheVariants as layer;
ghost use Rattle.sheet.specs.Text.{pieces};
ghost use Rattle.sheet.specs.Fault.{fault, placed, Reads, line_by};
ghost use Rattle.sheet.specs.Form.{most};
ghost use Rattle.sheet.specs.Body.{kind_of_line, number_of_line, text_of_line, body_line, told, held_by, how_many, laid_by, Fills, Filled};

use crate::contents::{Contents, Kind};
use crate::entry::{Entry, read_cnot, read_image, read_mct, read_row};
use crate::fault::{Fault, Layer};
use crate::rest::Rest;
use gates::refusal::Refusal;

// What the contents tell of a body, the number of its first line, and its part of the sheet.
#[derive(Clone, Copy)]
pub struct Body<'a> {
    pub contents: Contents,
    pub first: u64,
    pub part: &'a [u8],
}

impl<'a> Body<'a> {
    // All of its lines, as they are left to be read.
    fn unread(self) -> Rest<'a>
        ensures lines { result.lines.now ≡ self.entry.part.now }
        ensures number { result.number ≡ self.entry.first }
    {
        Rest {
            lines: self.part,
            number: self.first,
        }
    }
}

// A line of a body: its number, and its part of the sheet.
#[derive(Clone, Copy)]
pub enum BodyLine<'a> {
    Row(u64, &'a [u8]),
    Image(u64, &'a [u8]),
    CnotGate(u64, &'a [u8]),
    MctGate(u64, &'a [u8]),
}

// The line of a body of that kind.
fn body_line<'a>(kind: Kind, number: u64, text: &'a [u8]) -> BodyLine<'a>
    ensures kind { kind_of_line result ≡ kind }
    ensures number { number_of_line result ≡ number }
    ensures text { text_of_line result ≡ text.now }
{
    match kind {
        Kind::Matrix => BodyLine::Row(number, text),
        Kind::Table => BodyLine::Image(number, text),
        Kind::Cnots => BodyLine::CnotGate(number, text),
        Kind::Mcts => BodyLine::MctGate(number, text),
    }
}

// What a line holds, the one after the first `at` of a body on n lines.
fn read_entry(line: BodyLine<'_>, n: u8, at: usize) -> Result<Entry, Fault>
    requires { n ≤ most (kind_of_line line) }
    ensures { result ≡ placed layer.Body (number_of_line line.entry) (body_line (kind_of_line line.entry) n at (text_of_line line.entry)) }
{
    let (number, entry) = match line {
        BodyLine::Row(number, text) => (number, read_row(text, n).map(Entry::Word)),
        BodyLine::Image(number, text) => (number, read_image(text, n, at).map(Entry::Image)),
        BodyLine::CnotGate(number, text) => (number, read_cnot(text, n).map(Entry::Cnot)),
        BodyLine::MctGate(number, text) => (number, read_mct(text, n).map(Entry::Mct)),
    };
    entry.map_err(|why| Fault::at(why, number, Layer::Body))
}

// What the next line of a body holds, the one after its first `at` lines, and what is left after it.
fn next_entry(contents: Contents, at: usize, rest: Rest<'_>) -> Result<(Entry, Rest<'_>), Fault>
    requires { (contents.lines ≤ most contents.kind) × (rest.number + 1 < 2 ^ 64) }
    ensures { Reads rest.entry.number result (line_by layer.Body rest.entry.number (body_line contents.kind contents.lines at) (pieces 10 rest.entry.lines.now)) }
{
    let (text, after) = rest.next_line(Layer::Body)?;
    let line = body_line(contents.kind, rest.number, text);
    let entry = read_entry(line, contents.lines, at)?;
    Ok((entry, after))
}

// Lays an entry into its place, if there is one. By index: what `get_mut` lends out tells nothing of the place afterwards.
fn lay(entries: &mut [Entry], at: usize, entry: Entry)
    ensures { entries.new ≡ slice_set entries.old at entry }
{
    if at < entries.len() {
        entries[at] = entry;
    }
}

// Whether a contents line can tell of such a body, and its lines have numbers.
fn is_told(body: Body<'_>) -> bool
    ensures { result ≡ told body.entry.contents.kind body.entry.contents.lines body.entry.contents.count body.entry.first }
{
    let Contents { kind, lines, count } = body.contents;
    kind.fits(u32::from(lines), count) && body.first.checked_add(count as u64).is_some()
}

// Reads the lines of a body, and lays what they hold into the places from the start. `check_body` and
// `read_body` promise the same answer, so each states it.
fn read_lines(body: Body<'_>, entries: &mut [Entry]) -> Result<usize, Fault>
    ensures answer { result ≡ how_many (held_by body.entry) }
    ensures entries { Fills result (held_by body.entry) entries.old entries.new }
{
    if !is_told(body) {
        return Err(Fault::in_body(Refusal::WrongContents, body.first));
    }
    let count = body.contents.count;
    let mut rest = body.unread();
    // `at` is the row of the line and its place; there may be fewer places than lines.
    for at in 0..count {
        let (entry, after) = next_entry(body.contents, at, rest)?;
        lay(entries, at, entry);
        rest = after;
    }
    if !rest.lines.is_empty() {
        return Err(Fault::in_body(Refusal::WrongForm, rest.number));
    }
    Ok(count)
}

// Checks a body: how many entries it holds, or its first fault.
pub(crate) fn check_body(body: Body<'_>) -> Result<usize, Fault>
    ensures { result ≡ how_many (held_by body.entry) }
{
    read_lines(body, &mut [])
}

// Reads a body, lays its entries into the places from the start, and answers how many there are. Those past the last place are
// left out, and a fault changes no place. A body that no contents line can tell of, or whose line numbers reach 2^64, is
// declined as wrong contents at its first line.
pub fn read_body(body: Body<'_>, entries: &mut [Entry]) -> Result<usize, Fault>
    ensures answer { result ≡ how_many (held_by body.entry) }
    ensures entries { entries.new ≡ laid_by (held_by body.entry) entries.old }
    ensures filled { Filled result (held_by body.entry) entries.new }
{
    check_body(body)?;
    read_lines(body, entries)
}
