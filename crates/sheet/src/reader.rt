// A whole sheet: the contents, and the bodies that they tell of.
ghost use Rattle.std.specs.Prelude.{◌≡◌, ℕ, ◌+◌, ◌^◌, ◌<◌, ◌≤◌, List, length, take, drop, Ok, Err, Result, MatchResult};
ghost use Rattle.std.specs.Fn.{FnOnceReturnsAt};
ghost use Rattle.gates.specs.declared.refusal.Refusal.{Refusal};
ghost use Rattle.std.specs.List.{AllByRecursion};
ghost use Rattle.sheet.specs.declared.fault.Layer.TheVariants as layer;
ghost use Rattle.sheet.specs.Text.{pieces};
ghost use Rattle.sheet.specs.Fault.{Reads, line_by, and_then};
ghost use Rattle.sheet.specs.Form.{head, contents};
ghost use Rattle.sheet.specs.Sheet.{contents_lines, bodies, right_length, Sound};
ghost use Rattle.sheet.specs.Parts.{parts_from, sheet_parts, items_of, NextItem, body_rest};
ghost use Rattle.sheet.specs.Laws.{Lawful};

use crate::body::check_body;
use crate::contents::{Contents, read_contents, read_head};
use crate::fault::{Fault, Layer};
use crate::item::Item;
use crate::rest::Rest;
use crate::sheet::Sheet;
use crate::text::lines_end;
use arrayvec::ArrayVec;
use gates::refusal::Refusal;

// What `read` tells of line 1 or of a contents line, and what is left after it.
fn read_line<'a, T, F: FnOnce(&[u8]) -> Result<T, Refusal>>(
    rest: Rest<'a>,
    read: F,
) -> Result<(T, Rest<'a>), Fault>
    requires callable { F.IsAlwaysCallable read }
    requires numbered { rest.number + 1 < 2 ^ 64 }
    ensures { (f : List ℕ → Result T Refusal) → ((l : List ℕ) (r : Result T Refusal) → FnOnceReturnsAt F.FnOnce read l r → r ≡ f l) → Reads rest.entry.number result (line_by layer.Contents rest.entry.number f (pieces 10 rest.entry.lines.now)) }
{
    let (text, after) = rest.next_line(Layer::Contents)?;
    let told = read(text).map_err(|why| Fault::at(why, rest.number, Layer::Contents))?;
    Ok((told, after))
}

// The number of items, from line 1, and what is left after it.
fn next_head(sheet: &[u8]) -> Result<(usize, Rest<'_>), Fault>
    ensures { Reads 1 result (line_by layer.Contents 1 head (pieces 10 sheet.now)) }
{
    let rest = Rest {
        lines: sheet,
        number: 1,
    };
    read_line(rest, read_head)
}

// The contents line that stands next, and what is left after it.
fn next_contents(rest: Rest<'_>, first: u64) -> Result<(Contents, Rest<'_>), Fault>
    requires { rest.number + 1 < 2 ^ 64 }
    ensures { Reads rest.entry.number result (line_by layer.Contents rest.entry.number (contents first) (pieces 10 rest.entry.lines.now)) }
{
    read_line(rest, |text| read_contents(text, first))
}

// The contents lines of k items, which begin at line 2, and what is left after them.
fn read_contents_lines(
    sheet: Rest<'_>,
    k: usize,
) -> Result<(ArrayVec<Contents, 16>, Rest<'_>), Fault>
    requires { (k ≤ 16) × (sheet.number ≡ 2) }
    ensures { MatchResult result (λ p. contents_lines k 2 (k + 2) (pieces 10 sheet.entry.lines.now) ≡ Ok (p.0.items, pieces 10 p.1.lines.now)) (λ e. contents_lines k 2 (k + 2) (pieces 10 sheet.entry.lines.now) ≡ Err e) }
{
    let mut items = ArrayVec::new();
    let mut rest = sheet;
    let mut first = k as u64 + 2;
    for _item in 0..k {
        let (item, after) = next_contents(rest, first)?;
        items.push(item);
        first += item.count as u64;
        rest = after;
    }
    Ok((items, rest))
}

// The item whose body begins at the byte `start`: its part is cut from the sheet, and then read.
fn next_item(sheet: &[u8], contents: Contents, first: u64, start: usize) -> Result<Item, Fault>
    requires { (Sound contents) × ((first < 2 ^ 63) × (start ≤ length sheet.now)) }
    ensures { MatchResult result (NextItem sheet.now contents first start) (λ e. body_rest contents first (drop start sheet.now) ≡ Err e) }
{
    let end = start + lines_end(&sheet[start..], contents.count);
    let item = Item {
        contents,
        first,
        start,
        end,
    };
    let body = item.body(sheet).unwrap();
    check_body(body)?;
    Ok(item)
}

// The items whose bodies begin at the byte `from` of the sheet, after line 1 and the contents lines; nothing may follow the
// last body.
fn read_bodies(sheet: &[u8], contents: &[Contents], from: usize) -> Result<Sheet, Fault>
    requires { (length contents.now ≤ 16) × ((AllByRecursion Sound contents.now) × (from ≤ length sheet.now)) }
    ensures { items_of result ≡ and_then (bodies contents.now (length contents.now + 2) (pieces 10 (drop from sheet.now))) (λ hs. Ok (parts_from (length contents.now + 2) from hs)) }
{
    let mut items = Sheet::new();
    let mut first = contents.len() as u64 + 2;
    let mut start = from;
    for told in contents {
        let item = next_item(sheet, *told, first, start)?;
        items.push(item);
        first += item.contents.count as u64;
        start = item.end;
    }
    if start < sheet.len() {
        return Err(Fault::in_body(Refusal::WrongForm, first));
    }
    Ok(items)
}

// Whether a sheet has 1 to 16,384 bytes.
fn has_length(sheet: &[u8]) -> bool
    ensures { result ≡ right_length sheet.now }
{
    !sheet.is_empty() && sheet.len() <= 16384
}

// The items of a sheet, or its first fault.
pub fn read_sheet(sheet: &[u8]) -> Result<Sheet, Fault>
    ensures reads { items_of result ≡ sheet_parts sheet.now }
    ensures law { Lawful sheet.now result }
{
    if !has_length(sheet) {
        return Err(Fault::at(Refusal::WrongForm, 1, Layer::Contents));
    }
    let (count, rest) = next_head(sheet)?;
    let (contents, bodies) = read_contents_lines(rest, count)?;
    read_bodies(sheet, &contents, sheet.len() - bodies.lines.len())
}
