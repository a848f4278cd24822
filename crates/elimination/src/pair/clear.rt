// Clearing a line, stage by stage.
ghost use Rattle.std.specs.Prelude.{◌≡◌, ◌+◌, ◌*◌, ◌<◌, ◌≤◌, [], nat_le};
ghost use Rattle.arrayvec.specs.ArrayVec.{array_vec_len};
ghost use Rattle.clearing.specs.Clearing.{put, try, rising, sweep_at, greedy_at, pivot, clear as clear_line};
ghost use Rattle.clearing.specs.Pairs.{pairs, cost as cost_of};
ghost use Rattle.elimination.specs.Additions.{placed, Within};
ghost use Rattle.elimination.specs.Finds.{Done};
ghost use Rattle.elimination.specs.States.{state_of};

use super::Pair;
use super::choice::Choice;
use crate::addition::Addition;
use crate::placed::Placed;
use arrayvec::ArrayVec;
use gates::end::End;

// A pair, and the gates that led to it in the order found. Clearing a line of 64 takes 257 at most.
#[derive(Drop)]
pub(super) struct Found {
    pub(super) pair: Pair,
    pub(super) gates: ArrayVec<Placed, 257>,
}

// Whether a cost falls by 2 at least.
fn falls_by_two(before: u32, after: u32) -> bool
    requires { after ≤ 8192 }
    ensures { result ≡ nat_le (after + 2) before }
{
    after + 2 <= before
}

// How many gates a stage adds is its own, so each asks for its room; and whether a line is one of the pair's depends on both.
impl Found {
    // Nothing found yet.
    pub(super) fn new(pair: Pair) -> Found
        ensures pair { result.pair ≡ pair }
        ensures none { result.gates.items ≡ [] }
    {
        Found {
            pair,
            gates: ArrayVec::new(),
        }
    }

    // Makes a chosen addition and writes its gate down.
    fn keep(&mut self, choice: Choice)
        requires within { Within self.old.pair.lines choice.addition }
        requires cost { choice.cost ≡ cost_of (pairs.place (placed choice.addition) (state_of self.old.pair)) }
        requires room { array_vec_len self.old.gates < 257 }
        ensures { Done 1 (put pairs (placed choice.addition)) self.old self.new }
    {
        self.pair.put(choice.addition, choice.cost);
        self.gates.push(choice.addition.gate());
    }

    // Keeps an addition if its gain is at least 2.
    fn keep_if_good(&mut self, addition: Addition)
        requires within { Within self.old.pair.lines addition }
        requires room { array_vec_len self.old.gates < 257 }
        ensures { Done 1 (try pairs (placed addition)) self.old self.new }
    {
        let choice = self.pair.choice(addition);
        if falls_by_two(self.pair.cost(), choice.cost) {
            self.keep(choice);
        }
    }

    // Stage 1: keeps each gate from another unsolved line to `d`, at either end, whose gain is at least 2.
    fn greedy(&mut self, d: u8)
        requires inside { d < self.old.pair.lines }
        requires room { array_vec_len self.old.gates + 2 * self.old.pair.lines ≤ 257 }
        ensures { Done (2 * self.old.pair.lines) (rising (greedy_at pairs self.old.pair.lines d) 0 self.old.pair.lines) self.old self.new }
    {
        for i in 0..self.pair.lines {
            if i != d && !self.pair.is_solved(i) {
                self.keep_if_good(Addition::new(End::Output, i, d));
                self.keep_if_good(Addition::new(End::Input, i, d));
            }
        }
    }

    // Stage 2: brings a one to (d, d), if there is none.
    fn light(&mut self, d: u8)
        requires inside { d < self.old.pair.lines }
        requires room { array_vec_len self.old.gates < 257 }
        ensures { Done 1 (pivot pairs self.old.pair.lines d) self.old self.new }
    {
        if self.pair.at(End::Output, d, d) {
            return;
        }
        if let Some(choice) = self.pair.best_pivot(d) {
            self.keep(choice);
        }
    }

    // Stages 3 and 4: clears the entries at `d` of the lines other than `d`.
    fn sweep(&mut self, end: End, d: u8)
        requires inside { d < self.old.pair.lines }
        requires room { array_vec_len self.old.gates + self.old.pair.lines ≤ 257 }
        ensures { Done self.old.pair.lines (rising (sweep_at pairs end d) 0 self.old.pair.lines) self.old self.new }
    {
        for i in 0..self.pair.lines {
            if i != d && self.pair.at(end, i, d) {
                let best = self.pair.best_helper(Addition::new(end, d, i));
                self.keep(best);
            }
        }
    }

    // Clears line `d`.
    pub(super) fn clear(&mut self, d: u8)
        requires inside { d < self.old.pair.lines }
        requires room { array_vec_len self.old.gates + 4 * self.old.pair.lines < 257 }
        ensures { Done (4 * self.old.pair.lines + 1) (clear_line pairs self.old.pair.lines d) self.old self.new }
    {
        self.greedy(d);
        self.light(d);
        self.sweep(End::Output, d);
        self.sweep(End::Input, d);
    }
}
