// The images of the two words on one line.
ghost use Rattle.std.specs.Prelude.{ℕ, ◌<◌, slice_index};

#[derive(Clone, Copy)]
pub struct Wire {
    pub images: [u64; 2],
    ghost fits: { (x : ℕ) → slice_index images x < 2 },
}
