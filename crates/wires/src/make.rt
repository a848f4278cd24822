// How a piece of one line is made.
ghost use Rattle.wires.specs.Wires.{Made};

use crate::wire::Wire;
use gates::refusal::Refusal;
use pieces::row::first_wide;

impl Wire {
    // The piece with these images of 0 and 1.
    pub fn new(zero: u64, one: u64) -> Result<Wire, Refusal>
        ensures { Made zero one result }
    {
        let images = [zero, one];
        if let Some(row) = first_wide(1, &images) {
            return Err(Refusal::WideRow { row });
        }
        Ok(Wire { images })
    }
}
