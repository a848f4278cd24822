// How MCT gates go into a table. By the table's own calls, which serve gates of any kind, a run on eight lines takes seven
// times as long.
ghost use Rattle.std.specs.Prelude.{◌≡◌, ◌<◌, true, bit_or, ◌^◌};
ghost use Rattle.std.specs.List.{swap};
ghost use Rattle.gates.specs.Mcts.{mct, mct_legal};
ghost use Rattle.gates.specs.declared.end.End.TheVariants.{Input, Output};
ghost use Rattle.pieces.specs.Meanings.{Moved};
ghost use Rattle.tables.specs.Tables.{table_meaning};

use crate::word::flipped;
use gates::end::End;
use gates::mct::Mct;
use tables::table::Table;
use words::unit;

// Puts a legal gate in at an end. Whether it is legal depends on the table too, so no type can say it.
pub(crate) fn put(table: &mut Table, end: End, gate: Mct)
    requires { mct_legal table.old.lines gate ≡ true }
    ensures { Moved mct end gate (table_meaning table.old) (table_meaning table.new) }
{
    match end {
        End::Input => input(table, gate),
        End::Output => output(table, gate),
    }
}

// Exchanges the images of the words that the gate exchanges: those with all controls that differ in the target.
// `word` goes through the larger ones, by steps that no range has.
fn input(table: &mut Table, gate: Mct)
    requires { mct_legal table.old.lines gate ≡ true }
    ensures { Moved mct Input gate (table_meaning table.old) (table_meaning table.new) }
{
    let bit = unit(gate.target) as usize;
    let count = word_count(table);
    let mut word = gate_lines(gate);
    while word < count {
        exchange(table, word, word ^ bit);
        word = (word + 1) | gate_lines(gate);
    }
}

// Exchanges the images of two words.
fn exchange(table: &mut Table, a: usize, b: usize)
    requires a { a < 2 ^ table.old.lines }
    requires b { b < 2 ^ table.old.lines }
    ensures lines { table.new.lines ≡ table.old.lines }
    ensures images { table.new.images ≡ swap table.old.images a b }
{
    table.images.swap(a, b);
}

// Passes every image through the gate, also those that do not count: a loop of fixed length is fast.
fn output(table: &mut Table, gate: Mct)
    requires { mct_legal table.old.lines gate ≡ true }
    ensures { Moved mct Output gate (table_meaning table.old) (table_meaning table.new) }
{
    let bit = unit(gate.target) as u8;
    for image in &mut table.images {
        *image = flipped(*image, gate.controls, bit);
    }
}

// The controls and the target of a gate.
fn gate_lines(gate: Mct) -> usize
    requires { gate.target < 8 }
    ensures { result ≡ bit_or gate.controls (2 ^ gate.target) }
{
    gate.controls as usize | unit(gate.target) as usize
}

// How many words there are.
pub(crate) fn word_count(table: &Table) -> usize
    ensures { result ≡ 2 ^ table.now.lines }
{
    table.images().len()
}
