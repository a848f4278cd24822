// Random matrices and tables, from a seed.
ghost use Rattle.std.specs.Prelude.{◌<◌};

use gates::cnot::Cnot;
use matrices::matrix::Matrix;
use pieces::piece::Piece;
use tables::table::Table;

// A generator of 64-bit words, by a multiplication and shifts.
#[derive(Drop)]
pub(crate) struct Random {
    state: u64,
}

impl Random {
    pub(crate) fn new(seed: u64) -> Self {
        Random { state: seed }
    }

    fn word(&mut self) -> u64 {
        self.state = self.state.wrapping_add(0x9e37_79b9_7f4a_7c15);
        let mixed = (self.state ^ (self.state >> 30)).wrapping_mul(0xbf58_476d_1ce4_e5b9);
        let mixed = (mixed ^ (mixed >> 27)).wrapping_mul(0x94d0_49bb_1331_11eb);
        mixed ^ (mixed >> 31)
    }

    // A matrix whose images differ, each such matrix as likely as another. About every third one tried is.
    pub(crate) fn matrix(&mut self, lines: u8) -> Option<Matrix> {
        if lines > 64 {
            return None;
        }
        let mut rows = [0; 64];
        for _ in 0..1000 {
            for row in rows.iter_mut() {
                *row = self.word();
                if lines < 64 {
                    *row %= 1 << lines;
                }
            }
            let matrix = Matrix::new(lines, &rows[..lines as usize]).ok()?;
            if matrix.clash().is_none() {
                return Some(matrix);
            }
        }
        None
    }

    // A table whose images differ: the words in random order.
    pub(crate) fn table(&mut self, lines: u8) -> Option<Table> {
        if lines > 8 {
            return None;
        }
        let mut images = [0; 256];
        let count = 1 << lines;
        self.shuffled(lines, &mut images[..count])
    }

    // The table of the words in random order, written into these places.
    fn shuffled(&mut self, lines: u8, images: &mut [u64]) -> Option<Table> {
        arrange(images, |n| (self.word() % n as u64) as usize);
        Table::new(lines, images).ok()
    }
}

// Writes the words 0, 1 and so on in an order: `choose` tells at which of the first n places the next word goes, and what stood
// there moves to the last of them. By index, since each step reads and writes two places.
pub(crate) fn arrange<F>(words: &mut [u64], mut choose: F)
where
    F: FnMut(usize) -> usize,
    requires { (f : F) (n : _) → 0 < n → F.pre f n }
{
    for at in 0..words.len() {
        let other = choose(at + 1).min(at);
        words[at] = words[other];
        words[other] = at as u64;
    }
}
