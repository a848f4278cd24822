// The piece of one line takes gates of any kind, and has a run on MCT gates.
ghost use Rattle.std.specs.Prelude.{◌≡◌, ◌≤◌, OnOk, ◌≢◌, slice_index};
ghost use Rattle.gates.specs.Mcts.{mct};
ghost use Rattle.books.specs.Books.{free, Kept};
ghost use Rattle.pieces.specs.Runs.{RunTells, Ran};
ghost use Rattle.wires.specs.Wires.{wire_meaning, wire_plan};

use crate::wire::Wire;
use books::Book;
use gates::end::End;
use gates::gate::Gate;
use gates::mct::Mct;
use gates::refusal::{Refusal, enough_places};
use pieces::piece::Piece;
use pieces::synthesis::Synthesis;

impl<G: Gate> Piece<G> for Wire {
    ghost meaning = { wire_meaning };

    fn lines(&self) -> u8 {
        1
    }

    fn image(&self, word: u64) -> Result<u64, Refusal> {
        self.images
            .get(word as usize)
            .copied()
            .ok_or(Refusal::WideWord)
    }

    fn is_identity(&self) -> bool {
        self.images == [0, 1]
    }

    fn clash(&self) -> Option<(u64, u64)> {
        let [zero, one] = self.images;
        (zero == one).then_some((0, 1))
    }

    fn input(&mut self, gate: G) -> Result<(), Refusal> {
        gate.check(1)?;
        let [zero, one] = [0, 1].map(|word| gate.act(1, word) as usize);
        self.images = [self.images[zero], self.images[one]];
        Ok(())
    }

    fn output(&mut self, gate: G) -> Result<(), Refusal> {
        gate.check(1)?;
        self.images = self.images.map(|image| gate.act(1, image));
        Ok(())
    }
}

impl Synthesis<Mct> for Wire {
    ghost plan = { wire_plan };

    fn run(&mut self, book: &mut Book<Mct>) -> Result<(), Refusal> {
        self.can_run(book)?;
        self.settle(book);
        Ok(())
    }
}

impl Wire {
    // Whether a run is accepted: the images differ, and a place is free.
    fn can_run(&self, book: &Book<Mct>) -> Result<(), Refusal>
        ensures answer { RunTells wire_plan (wire_meaning self.now) book.now result }
        ensures ready { OnOk result ((slice_index self.now.images 0 ≢ slice_index self.now.images 1) × (1 ≤ free book.now)) }
    {
        if let Some((a, b)) = Piece::<Mct>::clash(self) {
            return Err(Refusal::SharedImage { a, b });
        }
        enough_places(1, book.free())
    }

    // Brings the map to identity, with a NOT gate at the output where 0 and 1 are exchanged.
    fn settle(&mut self, book: &mut Book<Mct>)
        requires apart { slice_index self.old.images 0 ≢ slice_index self.old.images 1 }
        requires room { 1 ≤ free book.old }
        ensures after { Ran mct wire_plan (wire_meaning self.old) book.old (wire_meaning self.new) book.new }
        ensures kept { Kept book.old book.new }
    {
        if self.images[0] == 0 {
            return;
        }
        self.images = [0, 1];
        let invert = Mct {
            controls: 0,
            target: 0,
        };
        let _ = book.push(End::Output, invert);
    }
}
