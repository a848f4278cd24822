// The choice of a gate by its gain, on trial.
ghost use Rattle.std.specs.Prelude.{◌≡◌, ◌+◌, ◌-◌, ◌<◌, ◌≤◌, false, if◌then◌else◌, None, nat_lt};
ghost use Rattle.gates.specs.declared.end.End.TheVariants.{Output};
ghost use Rattle.clearing.specs.Clearing.{adding, line, best as best_gate, helpers, pivots};
ghost use Rattle.clearing.specs.Pairs.{pairs, cost as cost_of};
ghost use Rattle.elimination.specs.Additions.{placed, Within};
ghost use Rattle.elimination.specs.Choices.{choose, best_of, gate_of, Fits};
ghost use Rattle.elimination.specs.States.{state_of};

use super::Pair;
use crate::addition::Addition;
use gates::end::End;

// An addition, and the cost that it would lead to.
#[derive(Clone, Copy)]
pub(super) struct Choice {
    pub(super) addition: Addition,
    pub(super) cost: u32,
}

// The one with the larger gain, the first among equals.
fn better(old: Choice, new: Choice) -> Choice
    ensures { result ≡ (if nat_lt new.cost old.cost then new else old) }
{
    if new.cost < old.cost { new } else { old }
}

impl Pair {
    pub(super) fn choice(&mut self, addition: Addition) -> Choice
        requires { Within self.old.lines addition }
        ensures same { self.new ≡ self.old }
        ensures addition { result.addition ≡ addition }
        ensures cost { result.cost ≡ cost_of (pairs.place (placed addition) (state_of self.old)) }
        ensures small { result.cost ≤ 8192 }
    {
        let cost = self.cost_after(addition);
        Choice { addition, cost }
    }

    // What to add to line `to` of an addition, where line `from` and line `to` have a one at `from`: line `from`, or one
    // above `to` with a one there, by the largest gain.
    pub(super) fn best_helper(&mut self, first: Addition) -> Choice
        requires { Within self.old.lines first }
        ensures same { self.new ≡ self.old }
        ensures within { Within self.old.lines result.addition }
        ensures cost { result.cost ≡ cost_of (pairs.place (placed result.addition) (state_of self.old)) }
        ensures value { placed result.addition ≡ best_gate pairs (state_of self.old) (placed first) (helpers pairs first.end (state_of self.old) first.from first.to (first.to + 1) (self.old.lines - (first.to + 1))) }
    {
        let Addition {
            end,
            from: d,
            to: i,
        } = first;
        let mut best = self.choice(first);
        for j in i + 1..self.lines {
            if j != d && self.at(end, j, d) {
                best = better(best, self.choice(Addition::new(end, j, i)));
            }
        }
        best
    }

    // The choice so far against adding line `i` to line `d`, if line `i` has a one at `d`.
    fn consider(&mut self, end: End, i: u8, d: u8, best: Option<Choice>) -> Option<Choice>
        requires within { i < self.old.lines }
        requires inside { d < self.old.lines }
        requires dark { line pairs Output (state_of self.old) d d ≡ false }
        requires fits { Fits self.old.lines (state_of self.old) best }
        ensures same { self.new ≡ self.old }
        ensures fits { Fits self.old.lines (state_of self.old) result }
        ensures value { gate_of result ≡ (if line pairs end (state_of self.old) i d then choose (state_of self.old) (gate_of best) (adding end i d) else gate_of best) }
    {
        if !self.at(end, i, d) {
            return best;
        }
        let new = self.choice(Addition::new(end, i, d));
        Some(best.map_or(new, |old| better(old, new)))
    }

    // Of the gates that bring a one to (d, d), where there is none, the one with the largest gain.
    pub(super) fn best_pivot(&mut self, d: u8) -> Option<Choice>
        requires inside { d < self.old.lines }
        requires dark { line pairs Output (state_of self.old) d d ≡ false }
        ensures same { self.new ≡ self.old }
        ensures fits { Fits self.old.lines (state_of self.old) result }
        ensures value { gate_of result ≡ best_of (state_of self.old) None (pivots pairs (state_of self.old) d 0 self.old.lines) }
    {
        let mut best = None;
        for i in 0..self.lines {
            best = self.consider(End::Output, i, d, best);
            best = self.consider(End::Input, i, d, best);
        }
        best
    }
}
