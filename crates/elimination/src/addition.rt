// A line to be added to another.
ghost use Rattle.std.specs.Prelude.{◌<◌, ◌≢◌};

use gates::end::End;

mod gate;

// Line `from` is added to line `to`: row to row at the output end, column to column at the input end.
#[derive(Clone, Copy)]
pub(crate) struct Addition {
    pub(crate) end: End,
    pub(crate) from: u8,
    pub(crate) to: u8,
    ghost from_line: { from < 64 },
    ghost to_line: { to < 64 },
    ghost apart: { from ≢ to },
}
