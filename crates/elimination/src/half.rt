// One layout of a matrix and its inverse.
ghost use Rattle.std.specs.Prelude.{◌≡◌, length};

mod entries;
mod trial;

// For the output end: the rows of the matrix and the columns of the inverse.
// For the input end: the columns of the matrix and the rows of the inverse. An addition changes word `to` of one
// and word `from` of the other, so that pairs of words would be no plainer.
#[derive(Clone, Copy)]
pub(crate) struct Half {
    first: [u64; 64],
    second: [u64; 64],
    ghost full: { length first ≡ 64 },
    ghost filled: { length second ≡ 64 },
}
