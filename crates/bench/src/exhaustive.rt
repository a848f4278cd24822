// The runs of all tables of three lines whose images differ.
use crate::MCT;
use crate::random::arrange;
use books::Book;
use mapping::rule::RowMapping;
use pieces::piece::Piece;
use pieces::rule::Rule;
use std::io;
use tables::table::Table;

const TABLES: usize = 40320;

// What the runs came to.
#[derive(Clone, Copy, Default)]
struct Account {
    at_identity: usize,
    gates: usize,
    most: usize,
}

// Runs every table, and prints how many came to identity, the average number of gates, and the largest.
pub(crate) fn run_all_tables(rt: &impl Print) -> io::Result<()> {
    let Account {
        at_identity,
        gates,
        most,
    } = tally_tables();
    let average = gates.saturating_mul(10_000).saturating_add(TABLES / 2) / TABLES;
    let whole = average / 10_000;
    let part = average % 10_000;
    println!(rt;
        "tables of 3 lines: all {TABLES} run, {at_identity} to identity, {whole}.{part:04} gates on average, at most {most}"
    )
}

fn tally_tables() -> Account {
    let mut account = Account::default();
    let mut images = [0; 8];
    let mut places = [MCT; 21];
    for index in 0..TABLES {
        arrange_by(index, &mut images);
        if let Ok(mut table) = Table::new(3, &images) {
            let mut book = Book::new(&mut places);
            if RowMapping.run(&mut table, &mut book).is_ok() && table.is_identity() {
                account.at_identity = account.at_identity.saturating_add(1);
                account.gates = account.gates.saturating_add(book.len());
                account.most = account.most.max(book.len());
            }
        }
    }
    account
}

// One order of the words for each index: the digits of the index, each to a larger base, tell their places.
fn arrange_by(index: usize, words: &mut [u64]) {
    let mut rest = index;
    arrange(words, |n| {
        let place = rest % n;
        rest /= n;
        place
    });
}
