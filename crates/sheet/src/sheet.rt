// The items of a sheet that is accepted.
ghost use Rattle.std.specs.Prelude.{◌≤◌};

use crate::item::Item;

// The first `count` of the places hold the items: an array, since a sheet is `Copy`, as an `ArrayVec` is not.
#[derive(Clone, Copy)]
pub struct Sheet {
    pub items: [Item; 16],
    pub count: usize,
    ghost few: { count ≤ 16 },
}

impl Sheet {
    ghost use Rattle.std.specs.Prelude.{◌≡◌, ◌+◌, ◌<◌, [], ◌∷◌, ◌++◌};
    ghost use Rattle.sheet.specs.Parts.{sheet_items};

    // A sheet without items.
    pub(crate) fn new() -> Sheet
        ensures { sheet_items result ≡ [] }
    {
        Sheet {
            items: [Item::default(); 16],
            count: 0,
        }
    }

    // One item more, after all others.
    pub(crate) fn push(&mut self, item: Item)
        requires { self.old.count < 16 }
        ensures items { sheet_items self.new ≡ sheet_items self.old ++ item ∷ [] }
        ensures count { self.new.count ≡ self.old.count + 1 }
    {
        self.items[self.count] = item;
        self.count += 1;
    }
}
