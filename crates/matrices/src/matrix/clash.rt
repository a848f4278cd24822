// The first two words that share an image.
ghost use Rattle.std.specs.Prelude.{◌≡◌, ◌*◌, ◌^◌, ◌<◌, ◌≤◌, length, if◌then◌else◌, bit_xor};
ghost use Rattle.words.specs.Maps.{Clash};
ghost use Rattle.words.specs.Words.{has, unit};
ghost use Rattle.matrices.specs.Columns.{Kept, Reduced};
ghost use Rattle.matrices.specs.Matrices.{image};
ghost use Rattle.matrices.specs.Meanings.{rows_of};

use super::Matrix;
use arrayvec::ArrayVec;
use words::{flipped, has_bit, unit};

// A word and its image.
#[derive(Clone, Copy)]
struct Imaged {
    word: u64,
    image: u64,
}

// A word of a basis, its image, and a bit that the image has and the later images lack: its pivot.
#[derive(Clone, Copy, Default)]
struct Held {
    word: u64,
    image: u64,
    pivot: u8,
}

impl Imaged {
    // Adds the held word where the image has its pivot.
    fn cleared(self, held: Held) -> Imaged
        ensures word { result.word ≡ (if has self.image held.pivot then bit_xor self.word held.word else self.word) }
        ensures image { result.image ≡ (if has self.image held.pivot then bit_xor self.image held.image else self.image) }
    {
        if has_bit(self.image, held.pivot) {
            Imaged {
                word: self.word ^ held.word,
                image: self.image ^ held.image,
            }
        } else {
            self
        }
    }

    // The word as one of a basis, with the highest bit of its image as the pivot.
    fn held(self) -> Held
        requires { 0 < self.image }
        ensures word { result.word ≡ self.word }
        ensures image { result.image ≡ self.image }
        ensures high { 2 ^ result.pivot ≤ self.image }
        ensures highest { self.image < 2 * 2 ^ result.pivot }
    {
        Held {
            word: self.word,
            image: self.image,
            pivot: self.image.ilog2() as u8,
        }
    }
}

// A word whose highest line is `t` and whose image is 0 tells two words that share an image:
// the word without that line, and the unit word of the line.
fn told(word: u64, t: u8) -> (u64, u64)
    ensures low { result.0 ≡ bit_xor word (unit t) }
    ensures high { result.1 ≡ unit t }
{
    (flipped(word, t), unit(t))
}

impl Matrix {
    // It goes through the columns rising: the first column that is a sum of earlier ones tells the pair.
    pub(super) fn first_clash(&self) -> Option<(u64, u64)>
        ensures { Clash self.now.lines (image (rows_of self.now)) result }
    {
        let mut basis: ArrayVec<Held, 64> = ArrayVec::new();
        for t in 0..self.lines {
            let found = self.reduced(&basis);
            if found.image == 0 {
                return Some(told(found.word, t));
            }
            basis.push(found.held());
        }
        None
    }

    // The unit word of the next line plus words of the basis, and its image, which lacks every pivot.
    fn reduced(&self, basis: &[Held]) -> Imaged
        requires line { length basis.now < self.now.lines }
        requires kept { Kept (image (rows_of self.now)) basis.now }
        ensures { Reduced (image (rows_of self.now)) basis.now (length basis.now) result }
    {
        let word = unit(basis.len() as u8);
        let mut found = Imaged {
            word,
            image: self.image_of(word),
        };
        for held in basis {
            found = found.cleared(*held);
        }
        found
    }
}
