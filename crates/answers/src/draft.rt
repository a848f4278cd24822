// A draft of an answer sheet: the answers, before they are written.
ghost use Rattle.std.specs.Prelude.{◌≡◌, ◌*◌, ◌^◌, ◌≤◌, length};
ghost use Rattle.arrayvec.specs.ArrayVec.{array_vec_len};

use crate::head::Head;
use arrayvec::ArrayVec;

mod add;
mod write;

// A draft takes up to 16 answers, each of fewer than 2^32 lines. One that it declines leaves it as it was. The texts of the
// bodies stand one after the other in `bodies`, and the heads tell of the answers. `size` is the length of the texts, and
// stands beside the array since it counts on past its end, where bytes are left out.
#[derive(Drop)]
pub struct Draft {
    bodies: [u8; 65536],
    size: usize,
    heads: ArrayVec<Head, 16>,
    ghost room: { length bodies ≡ 65536 },
    ghost few: { array_vec_len heads ≤ 16 },
    ghost short: { size ≤ array_vec_len heads * 2 ^ 40 },
}
