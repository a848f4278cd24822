// A run: line after line, each time the one with the largest cost drop per gate.
ghost use Rattle.std.specs.Prelude.{◌≡◌, ◌-◌, ◌<◌, ◌≤◌, length, Some, None};
ghost use Rattle.books.specs.Books.{ends, free, Kept};
ghost use Rattle.clearing.specs.Clearing.{run as run_of};
ghost use Rattle.clearing.specs.Laws.{room as room_of};
ghost use Rattle.clearing.specs.Pairs.{pairs};
ghost use Rattle.elimination.specs.Finds.{at_ends, all_put};
ghost use Rattle.elimination.specs.States.{state_of};
ghost use Rattle.elimination.specs.Lines.{Tried, line_of, choose_line, best_line, Remembered};

use super::Pair;
use super::clear::Found;
use super::cleared::Cleared;
use crate::placed::Placed;
use books::Book;
use gates::cnot::Cnot;

// Writes gates into a book, each at its end.
fn write_down(book: &mut Book<Cnot>, gates: &[Placed])
    requires { length gates.now ≤ free book.old }
    ensures ends { ends book.new ≡ all_put (at_ends gates.now) (ends book.old) }
    ensures free { free book.new ≡ free book.old - length gates.now }
    ensures kept { Kept book.old book.new }
{
    for placed in gates {
        let _ = book.push(placed.end, placed.gate);
    }
}

impl Pair {
    // Line `d` cleared on trial.
    fn trial(&self, d: u8) -> Cleared
        requires { d < self.now.lines }
        ensures line { result.line ≡ d }
        ensures tried { Tried self.now.lines (state_of self.now) result }
    {
        let mut found = Found::new(*self);
        found.clear(d);
        Cleared {
            line: d,
            left: found.pair.cost() as usize,
            count: found.gates.len(),
        }
    }

    // The choice so far against line `d`.
    fn try_line(&self, d: u8, best: Option<Cleared>) -> Cleared
        requires inside { d < self.now.lines }
        requires remembers { Remembered self.now.lines (state_of self.now) best }
        ensures tried { Tried self.now.lines (state_of self.now) result }
        ensures value { Some result.line ≡ choose_line self.now.lines (state_of self.now) (line_of best) d }
    {
        let before = self.cost() as usize;
        let new = self.trial(d);
        best.map_or(new, |old| Cleared::steeper(before, old, new))
    }

    // Of the unsolved lines, the one whose clearing has the largest cost drop per gate.
    fn best_line(&self) -> Option<Cleared>
        ensures remembers { Remembered self.now.lines (state_of self.now) result }
        ensures value { line_of result ≡ best_line self.now.lines (state_of self.now) None 0 self.now.lines }
    {
        let mut best = None;
        for d in 0..self.lines {
            if !self.is_solved(d) {
                best = Some(self.try_line(d, best));
            }
        }
        best
    }

    // Clears line after line until all are solved. The gates go into the book.
    pub(crate) fn run(&mut self, book: &mut Book<Cnot>)
        requires { room_of self.old.lines ≤ free book.old }
        ensures ends { ends book.new ≡ all_put (run_of pairs self.old.lines (state_of self.old)).gates (ends book.old) }
        ensures kept { Kept book.old book.new }
    {
        while let Some(best) = self.best_line() {
            let mut found = Found::new(*self);
            found.clear(best.line);
            write_down(book, found.gates.as_slice());
            *self = found.pair;
        }
    }
}
