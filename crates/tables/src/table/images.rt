// How a table reads its images, and what a gate makes of them.
ghost use Rattle.std.specs.Prelude.{◌≡◌, ◌^◌, ◌<◌, ◌≤◌};
ghost use Rattle.tables.specs.Tables.{images_of, table_meaning};

use super::Table;
use gates::gate::Gate;

// How many words there are on so many lines.
pub(super) fn word_count(lines: u8) -> usize
    requires { lines ≤ 8 }
    ensures { result ≡ 2 ^ lines }
{
    1 << lines
}

impl Table {
    // The images of the words, that of word 0 first.
    pub fn images(&self) -> &[u8]
        ensures { result.now ≡ images_of self.now }
    {
        &self.images[..word_count(self.lines)]
    }

    // The image of a word. Whether a number is one of its words depends on the table too, so no type can say it.
    pub(super) fn at(&self, word: usize) -> u8
        requires { word < 2 ^ self.now.lines }
        ensures is { result ≡ (table_meaning self.now).map word }
        ensures below { result < 2 ^ self.now.lines }
    {
        self.images[word]
    }

    // The image of a word that passes a gate first.
    pub(super) fn input_image<G: Gate>(&self, gate: G, word: usize) -> u8
        requires { word < 2 ^ self.now.lines }
        ensures is { result ≡ (table_meaning self.now).map (G.Gate.kind.act self.now.lines gate word) }
        ensures below { result < 2 ^ self.now.lines }
    {
        self.at(gate.act(self.lines, word as u64) as usize)
    }

    // The image of a word, passed on through a gate.
    pub(super) fn output_image<G: Gate>(&self, gate: G, word: usize) -> u8
        requires { word < 2 ^ self.now.lines }
        ensures is { result ≡ G.Gate.kind.act self.now.lines gate ((table_meaning self.now).map word) }
        ensures below { result < 2 ^ self.now.lines }
    {
        gate.act(self.lines, self.at(word) as u64) as u8
    }
}
