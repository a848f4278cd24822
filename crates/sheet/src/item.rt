// An item of a sheet, and its body in the sheet.
ghost use Rattle.std.specs.Prelude.{◌≡◌, false, MatchOption};
ghost use Rattle.sheet.specs.Parts.{lies_in, CutFrom};

use crate::body::Body;
use crate::contents::Contents;

// What the contents tell, the number of the first body line, and where the body stands in the sheet: two bounds, since a range
// is not copied.
#[derive(Clone, Copy, Default)]
pub struct Item {
    pub contents: Contents,
    pub first: u64,
    pub start: usize,
    pub end: usize,
}

impl Item {
    // The body, cut from the sheet; none where the item does not lie in the sheet.
    pub fn body<'a>(&self, sheet: &'a [u8]) -> Option<Body<'a>>
        ensures { MatchOption result (lies_in sheet.now self.now ≡ false) (CutFrom sheet.now self.now) }
    {
        Some(Body {
            contents: self.contents,
            first: self.first,
            part: sheet.get(self.start..self.end)?,
        })
    }
}
