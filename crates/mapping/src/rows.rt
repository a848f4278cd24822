// How the rows of a table are mapped, one after the other.
ghost use Rattle.std.specs.Prelude.{◌≡◌, ◌+◌, ◌-◌, ◌^◌, ◌<◌, ◌≤◌, nat_lt};
ghost use Rattle.words.specs.Maps.{Apart, Identity};
ghost use Rattle.books.specs.Books.{free};
ghost use Rattle.tables.specs.Tables.{table_meaning};
ghost use Rattle.mapping.specs.Rows.{total, table_plan};
ghost use Rattle.mapping.specs.Works.{Worked};

use crate::put::word_count;
use crate::word::mapping_len;
use crate::work::Work;
use gates::end::End;
use tables::table::Table;

impl Work<'_, '_> {
    // Maps every row but the last, each by the word with the smallest total. The search of a row is left by its label at the
    // first total of 0.
    pub(crate) fn map_rows(&mut self)
        requires apart { Apart (2 ^ self.old.table.now.lines) (table_meaning self.old.table.now).map }
        requires room { table_plan.budget self.old.table.now.lines ≤ free self.old.book.now }
        ensures worked { Worked self.old (table_plan.gates self.old.table.now.lines (table_meaning self.old.table.now).map) self.new }
        ensures identity { Identity self.old.table.now.lines (table_meaning self.new.table.now).map }
    {
        let count = word_count(self.table);
        'rows: for row in 0..but_last(count) {
            let mut best = row;
            let mut least = total_of(self.table, row, row);
            for word in row..count {
                let total = total_of(self.table, row, word);
                if total == 0 {
                    continue 'rows;
                }
                if is_better(total, least) {
                    least = total;
                    best = word;
                }
            }
            let image = self.table.images[best];
            self.map_word(End::Input, best as u8, row as u8);
            self.map_word(End::Output, image, row as u8);
        }
    }
}

// How many rows are mapped: the last one is right when all others are.
fn but_last(count: usize) -> usize
    requires { 0 < count }
    ensures { result ≡ count - 1 }
{
    count - 1
}

// How many gates map a word and its image to a row.
fn total_of(table: &Table, row: usize, word: usize) -> u32
    requires row { row < 2 ^ table.now.lines }
    requires word { word < 2 ^ table.now.lines }
    ensures is { result ≡ total (table_meaning table.now).map row word }
    ensures small { result ≤ 16 }
{
    mapping_len(word as u8, row as u8) + mapping_len(table.images[word], row as u8)
}

// Whether a total is below the least so far. On equal totals the word found first stays.
fn is_better(total: u32, least: u32) -> bool
    ensures { result ≡ nat_lt total least }
{
    total < least
}
