// The images of all words on up to eight lines.
ghost use Rattle.std.specs.Prelude.{◌≡◌, ℕ, ◌^◌, ◌<◌, ◌≤◌, length, slice_index};

mod images;
mod make;
mod piece;

// Only the first 2^lines images count: an array, and no `ArrayVec`, since a table is `Copy`. The fields are open to a crate
// above that has a faster way to put its gates in: that the images stay words is proved there.
#[derive(Clone, Copy)]
pub struct Table {
    pub lines: u8,
    pub images: [u8; 256],
    ghost some: { 1 ≤ lines },
    ghost few: { lines ≤ 8 },
    ghost full: { length images ≡ 256 },
    ghost below: { (x : ℕ) → x < 2 ^ lines → slice_index images x < 2 ^ lines },
}
