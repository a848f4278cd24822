// How a word is mapped to a row: its gates go into the table and into the book.
ghost use Rattle.std.specs.Prelude.{◌≡◌, ℕ, ◌^◌, ◌<◌, ◌≤◌, true, length};
ghost use Rattle.words.specs.Words.{bit};
ghost use Rattle.gates.specs.Mcts.{mct_legal};
ghost use Rattle.books.specs.Books.{free};
ghost use Rattle.mapping.specs.Took.{at_end};
ghost use Rattle.mapping.specs.Mapping.{flips, mapping};
ghost use Rattle.mapping.specs.Works.{Worked};

use crate::word::{shrink, without};
use crate::work::Work;
use gates::end::End;
use gates::mct::Mct;
use words::has_bit;

impl Work<'_, '_> {
    // Puts in a gate with these controls for each one of a word, rising.
    fn put_flips(&mut self, end: End, controls: u8, targets: u8)
        requires legal { (i : ℕ) → bit targets i ≡ 1 → mct_legal self.old.table.now.lines (record { controls = controls; target = i }) ≡ true }
        requires room { length (flips controls targets) ≤ free self.old.book.now }
        ensures { Worked self.old (at_end end (flips controls targets)) self.new }
    {
        for target in 0..8 {
            if has_bit(targets as u64, target) {
                self.put(end, Mct { controls, target });
            }
        }
    }

    // Puts in the gates that map y to x, all at one end.
    pub(crate) fn map_word(&mut self, end: End, y: u8, x: u8)
        requires order { x ≤ y }
        requires word { y < 2 ^ self.old.table.now.lines }
        requires room { length (mapping y x) ≤ free self.old.book.now }
        ensures { Worked self.old (at_end end (mapping y x)) self.new }
    {
        let c = shrink(y, x);
        self.put_flips(end, c, without(x ^ y, c));
        self.put_flips(end, x, without(c, x));
    }
}
