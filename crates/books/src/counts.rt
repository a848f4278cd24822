// The counts of a book's gates, and how they change. A match in each call: a count lent to be written could break what the type
// says of both.
ghost use Rattle.std.specs.Prelude.{◌≡◌, ◌<◌};
ghost use Rattle.books.specs.Places.{tally, Room, counts, more, fewer};

use crate::Book;
use gates::end::End;

impl<'a, G: Copy> Book<'a, G> {
    // Counts one gate more at an end.
    pub(crate) fn grow(&mut self, end: End)
        requires { Room self.old }
        ensures places { self.new.places ≡ self.old.places }
        ensures counts { counts self.new ≡ more end (counts self.old) }
    {
        match end {
            End::Input => self.inputs += 1,
            End::Output => self.outputs += 1,
        }
    }

    // Counts one gate fewer at an end.
    pub(crate) fn shrink(&mut self, end: End)
        requires { 0 < tally end self.old }
        ensures places { self.new.places ≡ self.old.places }
        ensures counts { counts self.new ≡ fewer end (counts self.old) }
    {
        match end {
            End::Input => self.inputs -= 1,
            End::Output => self.outputs -= 1,
        }
    }
}
