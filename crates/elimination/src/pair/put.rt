// What a pair tells, gates put in for good, and what a gate would cost.
ghost use Rattle.std.specs.Prelude.{◌≡◌, ◌<◌, ◌≤◌};
ghost use Rattle.clearing.specs.Clearing.{line, solved};
ghost use Rattle.clearing.specs.Pairs.{pairs, cost as cost_of};
ghost use Rattle.elimination.specs.Additions.{placed, Within};
ghost use Rattle.elimination.specs.Halves.{weight_of, weight_once};
ghost use Rattle.elimination.specs.States.{half_at, state_of};

use super::Pair;
use crate::addition::Addition;
use crate::half::Half;
use gates::end::End;

impl Pair {
    pub(crate) fn cost(&self) -> u32
        ensures value { result ≡ cost_of (state_of self.now) }
        ensures small { result ≤ 8192 }
    {
        self.cost
    }

    // The layout whose words are the lines of an end, to read: one lent to be written could leave the pair unsound, so the
    // methods that write name it in their arms.
    fn half(&self, end: End) -> &Half
        ensures { result.now ≡ half_at end self.now }
    {
        match end {
            End::Output => &self.rows,
            End::Input => &self.columns,
        }
    }

    // Entry `k` of line `i`: of row `i` at the output end, of column `i` at the input end.
    pub(crate) fn at(&self, end: End, i: u8, k: u8) -> bool
        requires inside { i < self.now.lines }
        requires within { k < self.now.lines }
        ensures { result ≡ line pairs end (state_of self.now) i k }
    {
        self.half(end).at(i, k)
    }

    // Whether row `d` and column `d` are those of identity.
    pub(crate) fn is_solved(&self, d: u8) -> bool
        requires { d < self.now.lines }
        ensures { result ≡ solved pairs self.now.lines (state_of self.now) d }
    {
        self.rows.is_unit(d) && self.columns.is_unit(d)
    }

    // What the words that an addition changes weigh before it, and after it, on trial.
    fn weights(&mut self, addition: Addition) -> (u32, u32)
        ensures same { self.new ≡ self.old }
        ensures before { result.0 ≡ weight_of addition (half_at addition.end self.old) }
        ensures after { result.1 ≡ weight_once addition (half_at addition.end self.old) }
        ensures small { result.1 ≤ 128 }
    {
        match addition.end {
            End::Output => self.rows.weights(addition),
            End::Input => self.columns.weights(addition),
        }
    }

    // The cost once an addition is made, on trial. Not inlined: inlined into its callers' loops it takes half as long again.
    #[inline(never)]
    pub(crate) fn cost_after(&mut self, addition: Addition) -> u32
        requires { Within self.old.lines addition }
        ensures same { self.new ≡ self.old }
        ensures value { result ≡ cost_of (pairs.place (placed addition) (state_of self.old)) }
        ensures small { result ≤ 8192 }
    {
        let (before, after) = self.weights(addition);
        self.cost + after - before
    }

    // Makes an addition, which leads to a cost. The two come one by one: as a choice they make a run a twentieth slower.
    pub(super) fn put(&mut self, addition: Addition, cost: u32)
        requires within { Within self.old.lines addition }
        requires cost { cost ≡ cost_of (pairs.place (placed addition) (state_of self.old)) }
        ensures lines { self.new.lines ≡ self.old.lines }
        ensures state { state_of self.new ≡ pairs.place (placed addition) (state_of self.old) }
    {
        self.cost = cost;
        match addition.end {
            End::Output => {
                self.rows.add(addition);
                self.columns.spread(addition);
            }
            End::Input => {
                self.columns.add(addition);
                self.rows.spread(addition);
            }
        }
    }
}
