// A line cleared on trial.
ghost use Rattle.std.specs.Prelude.{◌≤◌};

// The cost that is left, and the number of its gates.
#[derive(Clone, Copy)]
pub(super) struct Cleared {
    pub(super) line: u8,
    pub(super) left: usize,
    pub(super) count: usize,
    ghost small_cost: { left ≤ 8192 },
    ghost few_gates: { count ≤ 257 },
}

impl Cleared {
    ghost use Rattle.std.specs.Prelude.{◌≡◌};
    ghost use Rattle.elimination.specs.Lines.{steeper as steeper_of};

    // Of two lines cleared from the same cost, the one with the larger cost drop per gate, the first among equals.
    pub(super) fn steeper(before: usize, old: Cleared, new: Cleared) -> Cleared
        requires { before ≤ 8192 }
        ensures { result ≡ steeper_of before old new }
    {
        if before * new.count + new.left * old.count < before * old.count + old.left * new.count {
            new
        } else {
            old
        }
    }
}
