// What a run works on, and how a gate goes in.
ghost use Rattle.std.specs.Prelude.{◌≡◌, ◌≤◌, true, [], ◌∷◌};
ghost use Rattle.gates.specs.Mcts.{mct_legal};
ghost use Rattle.books.specs.Books.{free};
ghost use Rattle.mapping.specs.Works.{Worked};

use crate::put::put;
use books::Book;
use gates::end::End;
use gates::mct::Mct;
use tables::table::Table;

// A table, and the book into which its gates go.
#[derive(Drop)]
pub(crate) struct Work<'a, 'b> {
    pub(crate) table: &'a mut Table,
    pub(crate) book: &'a mut Book<'b, Mct>,
}

impl<'a, 'b> Work<'a, 'b> {
    // Puts a legal gate, for which a place is free, in at an end.
    pub(crate) fn put(&mut self, end: End, gate: Mct)
        requires legal { mct_legal self.old.table.now.lines gate ≡ true }
        requires room { 1 ≤ free self.old.book.now }
        ensures { Worked self.old ((end, gate) ∷ []) self.new }
    {
        put(self.table, end, gate);
        let _ = self.book.push(end, gate);
    }
}
