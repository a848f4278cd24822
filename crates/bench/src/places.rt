// How many places the run of a matrix needs, whatever the matrix.
use crate::CNOT;
use books::Book;
use elimination::Elimination;
use gates::cnot::Cnot;
use gates::refusal::Refusal;
use matrices::matrix::Matrix;
use pieces::rule::Rule;
use std::io;

pub(crate) fn tell_places(rt: &impl Print) -> io::Result<()> {
    tell_run(rt, &mut [CNOT; 8127])?;
    tell_run(rt, &mut [CNOT; 8126])
}

// Runs a matrix of 64 lines over these places.
fn tell_run(rt: &impl Print, places: &mut [Cnot]) -> io::Result<()> {
    let count = places.len();
    let mut book = Book::new(places);
    print!(rt; "a matrix of 64 lines, {count} places: ")?;
    match run_identity(&mut book) {
        Ok(()) => println!(rt; "the run is accepted"),
        Err(Refusal::TooFewPlaces { needed, free }) => {
            println!(rt; "the run is declined, {needed} are needed and {free} are free")
        }
        Err(_) => println!(rt; "the run is declined"),
    }
}

fn run_identity(book: &mut Book<Cnot>) -> Result<(), Refusal> {
    let mut matrix = Matrix::identity(64)?;
    Elimination.run(&mut matrix, book)
}
