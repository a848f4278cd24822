// How a table is made.
ghost use Rattle.std.specs.Prelude.{◌≡◌, ℕ, ◌^◌, ◌<◌, ◌≤◌, ◌&&◌, length, take, EachIndex, ◌==◌, nat_le, slice_index};
ghost use Rattle.words.specs.Maps.{Identity, Same};
ghost use Rattle.tables.specs.Tables.{Made, counting, table_meaning};

use super::Table;
use super::images::word_count;
use gates::refusal::Refusal;
use pieces::row::first_wide;

impl Table {
    // The table of these images, the image of word 0 first.
    pub fn new(lines: u8, images: &[u64]) -> Result<Table, Refusal>
        ensures { Made lines images.now result }
    {
        if !is_size(lines, images.len()) {
            return Err(Refusal::WrongSize);
        }
        if let Some(row) = first_wide(lines, images) {
            return Err(Refusal::WideRow { row });
        }
        Ok(Table {
            lines,
            images: padded(images),
        })
    }

    // The table in which every word is its own image.
    pub fn identity(lines: u8) -> Result<Table, Refusal>
        ensures { Made lines (counting 0 (2 ^ lines)) result }
    {
        if !(1..=8).contains(&lines) {
            return Err(Refusal::WrongSize);
        }
        Ok(Table::by(lines, |word| word as u8))
    }

    // The table in which a function tells the image of each word.
    pub(super) fn by<F: Fn(usize) -> u8>(lines: u8, image: F) -> Table
        requires some { 1 ≤ lines }
        requires few { lines ≤ 8 }
        requires callable { (x : ℕ) → x < 2 ^ lines → F.pre image x }
        requires words { (x y : ℕ) → x < 2 ^ lines → F.post image x y → y < 2 ^ lines }
        ensures lines { result.lines ≡ lines }
        ensures images { (x : ℕ) → x < 2 ^ lines → F.post image x ((table_meaning result).map x) }
    {
        let mut images = [0; 256];
        for (word, place) in images[..word_count(lines)].iter_mut().enumerate() {
            *place = image(word);
        }
        Table { lines, images }
    }
}

// Whether a table may have so many lines and so many images.
fn is_size(lines: u8, count: usize) -> bool
    ensures { result ≡ (nat_le 1 lines && (nat_le lines 8 && count == 2 ^ lines)) }
{
    (1..=8).contains(&lines) && count == word_count(lines)
}

// The images in front of zeros.
fn padded(images: &[u64]) -> [u8; 256]
    requires few { length images.now ≤ 256 }
    requires small { EachIndex images.now (λ x. slice_index images.now x < 256) }
    ensures { take (length images.now) result ≡ images.now }
{
    let mut held = [0; 256];
    for (word, image) in images.iter().enumerate() {
        held[word] = *image as u8;
    }
    held
}
