// A job by hand: gates are found at both ends of a table until it is identity, and the circuit is delivered to a list.
ghost use Rattle.std.specs.Prelude.{◌≡◌, true};
ghost use Rattle.books.specs.Ends.{sound};
ghost use Rattle.books.specs.Books.{ends};

use crate::stop::Stop;
use crate::telling::{print_gates, print_refusal, tell_images};
use books::Book;
use gates::end::End;
use gates::gate::Gate;
use gates::mct::Mct;
use gates::refusal::Refusal;
use job::call::Edit;
use job::conduct::{Ending, conduct};
use job::step::Step;
use job::ticket::Ticket;
use pieces::piece::Piece;
use std::io;
use tables::table::Table;
use takers::list::GateList;
use takers::taker::Taker;

// Makes the edits, delivers, and prints each edit with its answer, the circuit, and whether it has the table's map.
pub(crate) fn work_by_hand(
    rt: &impl Print,
    table: Table,
    steps: &mut [Step<Edit<Mct>>],
    book: &mut Book<Mct>,
    list: &mut GateList<Mct>,
) -> Result<(), Stop> {
    let mut piece = table;
    let ended = conducted(&mut piece, steps, book, list);
    for step in steps {
        print_step(rt, step)?;
    }
    ended?;
    print_gates(rt, "delivered", list.gates())?;
    tell_map(rt, &table, list)?;
    Ok(())
}

// The whole job. Where the delivery is declined, it is given up first: so a match, and no `map_err`.
fn conducted<G: Gate, P: Piece<G>, T: Taker<G>>(
    piece: &mut P,
    steps: &mut [Step<Edit<G>>],
    book: &mut Book<G>,
    taker: &mut T,
) -> Result<(), Refusal> {
    match conduct(piece, book, steps, Ending::Deliver, taker)? {
        Ok(()) => Ok(()),
        Err((ticket, why)) => {
            abandon(ticket, piece, book);
            Err(why)
        }
    }
}

// Gives a job up that is still as its calls left it, which is never declined.
fn abandon<G: Gate, P: Piece<G>>(ticket: Ticket, piece: &mut P, book: &mut Book<G>)
    requires lines { ticket.lines ≡ (P.Piece.meaning piece.old).lines }
    requires legal { sound G.Gate.kind ticket.lines (ends book.old) ≡ true }
{
    if let Err((_ticket, _why)) = ticket.give_up(piece, book) {
        unreachable!()
    }
}

fn print_step(rt: &impl Print, step: &Step<Edit<Mct>>) -> io::Result<()> {
    match step.call {
        Edit::Put(End::Input, gate) => print!(rt; "  input gate {gate}:")?,
        Edit::Put(End::Output, gate) => print!(rt; "  output gate {gate}:")?,
        Edit::TakeBack(End::Input) => print!(rt; "  take back at the input:")?,
        Edit::TakeBack(End::Output) => print!(rt; "  take back at the output:")?,
    }
    match step.answer {
        None => println!(rt; " not made"),
        Some(Ok(())) => println!(rt; " accepted"),
        Some(Err(why)) => print_refusal(rt, why),
    }
}

// Tells whether the list makes of each word what the table does.
fn tell_map(rt: &impl Print, table: &Table, list: &GateList<Mct>) -> io::Result<()> {
    if tell_images(rt, |word| list.image(word), |word| table.image(word))? {
        println!(rt; "  as in the table")
    } else {
        println!(rt; "  the table has another image")
    }
}
