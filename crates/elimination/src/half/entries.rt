// The words of a layout, and an addition seen across.
ghost use Rattle.std.specs.Prelude.{◌≡◌, ◌^◌, ◌<◌, ◌==◌, slice_index};
ghost use Rattle.words.specs.Words.{has};
ghost use Rattle.elimination.specs.Halves.{column_added, Spread};

use super::Half;
use crate::addition::Addition;

impl Half {
    pub(crate) fn new(first: [u64; 64], second: [u64; 64]) -> Half
        ensures first { result.first ≡ first }
        ensures second { result.second ≡ second }
    {
        Half { first, second }
    }

    // An addition to a line of the other layout, where it changes a bit of each word.
    pub(crate) fn spread(&mut self, addition: Addition)
        ensures { Spread addition self.old self.new }
    {
        let Addition { from, to, .. } = addition;
        flip(&mut self.first, from, to);
        flip(&mut self.second, to, from);
    }

    // Entry `k` of line `i` of the matrix.
    pub(crate) fn at(&self, i: u8, k: u8) -> bool
        requires line { i < 64 }
        requires place { k < 64 }
        ensures { result ≡ has (slice_index self.now.first i) k }
    {
        (self.first[i as usize] >> k) & 1 == 1
    }

    // Whether line `i` of the matrix is that of identity.
    pub(crate) fn is_unit(&self, i: u8) -> bool
        requires { i < 64 }
        ensures { result ≡ (slice_index self.now.first i == 2 ^ i) }
    {
        self.first[i as usize] == 1 << i
    }
}

// Flips bit `to` of each word where its bit `from` is 1.
fn flip(words: &mut [u64; 64], from: u8, to: u8)
    requires from { from < 64 }
    requires to { to < 64 }
    ensures { words.new ≡ column_added to from words.old }
{
    for word in words.iter_mut() {
        *word ^= ((*word >> from) & 1) << to;
    }
}
