// A table as a piece that takes gates of any kind.
ghost use Rattle.std.specs.Prelude.{◌≡◌, ℕ, ◌^◌, ◌<◌, ◌≤◌, length, Decides, EachIndex, MatchOption, ◌≢◌, slice_index};
ghost use Rattle.words.specs.Maps.{Identity, Clash};
ghost use Rattle.gates.specs.Refusals.{image};
ghost use Rattle.tables.specs.Tables.{table_meaning};

use super::Table;
use gates::gate::Gate;
use gates::refusal::Refusal;
use pieces::piece::Piece;
use words::is_word;

// The questions of the interface stand here too: through it alone a call would have to name a gate kind that does not matter.
impl Table {
    pub fn lines(&self) -> u8
        ensures { result ≡ self.now.lines }
    {
        self.lines
    }

    pub fn image(&self, word: u64) -> Result<u64, Refusal>
        ensures { result ≡ image self.now.lines (table_meaning self.now).map word }
    {
        if !is_word(self.lines, word) {
            return Err(Refusal::WideWord);
        }
        Ok(self.at(word as usize) as u64)
    }

    // Whether every word is its own image.
    pub fn is_identity(&self) -> bool
        ensures { Decides result (Identity self.now.lines (table_meaning self.now).map) }
    {
        self.images()
            .iter()
            .enumerate()
            .all(|(word, image)| *image as usize == word)
    }

    // The smallest word whose image a smaller word shares, after that smaller word.
    pub fn clash(&self) -> Option<(u64, u64)>
        ensures { Clash self.now.lines (table_meaning self.now).map result }
    {
        // Which images the words so far have.
        let mut seen = [false; 256];
        for (b, image) in self.images().iter().enumerate() {
            if seen[*image as usize] {
                let a = self.first_word(*image);
                return Some((a as u64, b as u64));
            }
            seen[*image as usize] = true;
        }
        None
    }

    // The first word of this image, which some word has.
    fn first_word(&self, image: u8) -> usize
        requires { (x : ℕ) × (x < 2 ^ self.now.lines) × ((table_meaning self.now).map x ≡ image) }
        ensures is { (table_meaning self.now).map result ≡ image }
        ensures first { (x : ℕ) → x < 2 ^ self.now.lines → (table_meaning self.now).map x ≡ image → result ≤ x }
    {
        self.images()
            .iter()
            .position(|other| *other == image)
            .unwrap()
    }
}

impl<G: Gate> Piece<G> for Table {
    ghost meaning = { table_meaning };

    fn lines(&self) -> u8 {
        self.lines
    }

    fn image(&self, word: u64) -> Result<u64, Refusal> {
        self.image(word)
    }

    fn is_identity(&self) -> bool {
        self.is_identity()
    }

    fn clash(&self) -> Option<(u64, u64)> {
        self.clash()
    }

    // The interface has a method for each end; they differ in the function of words alone, which `by` takes.
    fn input(&mut self, gate: G) -> Result<(), Refusal> {
        gate.check(self.lines)?;
        *self = Table::by(self.lines, |word| self.input_image(gate, word));
        Ok(())
    }

    fn output(&mut self, gate: G) -> Result<(), Refusal> {
        gate.check(self.lines)?;
        *self = Table::by(self.lines, |word| self.output_image(gate, word));
        Ok(())
    }
}
