// The rule by which a table is brought to identity, row by row.
ghost use Rattle.std.specs.Prelude.{◌≡◌, ◌^◌, ◌≤◌, OnOk};
ghost use Rattle.words.specs.Maps.{Apart};
ghost use Rattle.books.specs.Books.{free};
ghost use Rattle.pieces.specs.Runs.{RunTells};
ghost use Rattle.tables.specs.Tables.{table_meaning};
ghost use Rattle.mapping.specs.Rows.{table_plan};

use crate::work::Work;
use books::Book;
use gates::mct::Mct;
use gates::refusal::{Refusal, enough_places};
use pieces::piece::Piece;
use pieces::rule::Rule;
use tables::table::Table;

// Maps the rows of a table to themselves, from row 0 on, by MCT gates at both ends.
#[derive(Clone, Copy)]
pub struct RowMapping;

impl Rule<Mct, Table> for RowMapping {
    ghost plan = { λ _. table_plan };

    fn run(&self, table: &mut Table, book: &mut Book<Mct>) -> Result<(), Refusal> {
        can_run(table, book)?;
        let mut work = Work { table, book };
        work.map_rows();
        Ok(())
    }
}

// Whether a run is accepted: all images differ, and there are places enough for any run on so many lines.
fn can_run(table: &Table, book: &Book<Mct>) -> Result<(), Refusal>
    ensures answer { RunTells table_plan (table_meaning table.now) book.now result }
    ensures ready { OnOk result (Apart (2 ^ table.now.lines) (table_meaning table.now).map × (table_plan.budget table.now.lines ≤ free book.now)) }
{
    if let Some((a, b)) = table.clash() {
        return Err(Refusal::SharedImage { a, b });
    }
    enough_places(budget(table.lines()), book.free())
}

// The places that a run on so many lines needs.
fn budget(lines: u8) -> usize
    requires { lines ≤ 8 }
    ensures { result ≡ table_plan.budget lines }
{
    lines as usize * ((1 << lines) - 1)
}
