// A square matrix of bits, which is a linear map of line words.
ghost use Rattle.std.specs.Prelude.{◌≡◌, ℕ, ◌^◌, ◌<◌, ◌≤◌, length, slice_index};

mod clash;
mod inverse;
mod make;
mod piece;
mod rows;

// Entry (r, c) is bit c of row word r. Only the first `lines` rows count: a matrix is Copy, as no ArrayVec of rows would be.
#[derive(Clone, Copy)]
pub struct Matrix {
    lines: u8,
    rows: [u64; 64],
    ghost some: { 1 ≤ lines },
    ghost few: { lines ≤ 64 },
    ghost full: { length rows ≡ 64 },
    ghost below: { (r : ℕ) → r < lines → slice_index rows r < 2 ^ lines },
}
