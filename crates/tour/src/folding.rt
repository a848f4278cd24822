// A laboratory's gates are folded over identity into the matrix or the table that they make.
ghost use Rattle.std.specs.Prelude.{◌≡◌, IfOk};
ghost use Rattle.words.specs.Maps.{Same};
ghost use Rattle.gates.specs.Circuits.{through};

use crate::stop::Stop;
use crate::telling::{print_bits, print_gates, tell_images};
use gates::circuit;
use gates::cnot::Cnot;
use gates::gate::Gate;
use gates::mct::Mct;
use gates::refusal::Refusal;
use matrices::matrix::Matrix;
use pieces::piece::Piece;
use std::io;
use tables::table::Table;
use takers::feed::feed;
use takers::fold::Fold;
use takers::taker::Taker;

// The piece with the gates behind its map.
fn folded<G: Gate, P: Piece<G> + Drop>(gates: &[G], piece: P) -> Result<P, Refusal>
    ensures { IfOk result (λ p. ((P.Piece.meaning p).lines ≡ (P.Piece.meaning piece).lines) × Same (P.Piece.meaning piece).lines (P.Piece.meaning p).map (λ w. through G.Gate.kind (P.Piece.meaning piece).lines gates.now ((P.Piece.meaning piece).map w))) }
{
    let mut fold = Fold::new(piece);
    feed(gates, &mut fold)?;
    Ok(fold.into_piece())
}

// Prints the rows of the gates' matrix, reads it back, and prints the rows of its inverse.
pub(crate) fn tell_matrix(rt: &impl Print, n: u8, gates: &[Cnot]) -> Result<(), Stop> {
    print_gates(rt, "given", gates)?;
    let matrix = folded(gates, Matrix::identity(n)?)?;
    print_rows(rt, &matrix)?;
    tell_agreement(rt, gates, &matrix)?;
    let inverse = matrix.inverse()?;
    println!(rt; "  inverse")?;
    print_rows(rt, &inverse)?;
    Ok(())
}

// Prints the gates' table and reads it back.
pub(crate) fn tell_table(rt: &impl Print, n: u8, gates: &[Mct]) -> Result<(), Stop> {
    print_gates(rt, "given", gates)?;
    let table = folded(gates, Table::identity(n)?)?;
    print_table(rt, &table)?;
    tell_agreement(rt, gates, &table)?;
    Ok(())
}

// A matrix of these row words is shown its clash.
pub(crate) fn tell_clash(rt: &impl Print, n: u8, rows: &[u64]) -> Result<(), Stop> {
    let matrix = Matrix::new(n, rows)?;
    print_rows(rt, &matrix)?;
    match matrix.clash() {
        Some((a, b)) => println!(rt; "  {a} and {b} share an image")?,
        None => println!(rt; "  all images differ")?,
    }
    print_rows(rt, &matrix.inverse()?)?;
    Ok(())
}

// Reads a piece back word by word, and tells whether each comes out as the gates make it.
fn tell_agreement<G: Gate, P: Piece<G>>(rt: &impl Print, gates: &[G], piece: &P) -> io::Result<()> {
    let n = piece.lines();
    if tell_images(
        rt,
        |word| piece.image(word),
        |word| Ok(circuit::image(gates, n, word)),
    )? {
        println!(rt; "  as the gates make it")
    } else {
        println!(rt; "  the gates make another word of it")
    }
}

fn print_rows(rt: &impl Print, matrix: &Matrix) -> io::Result<()> {
    for row in matrix.rows() {
        print_bits(rt, matrix.lines(), *row)?;
    }
    Ok(())
}

fn print_table(rt: &impl Print, table: &Table) -> io::Result<()> {
    print!(rt; "  table:")?;
    for image in table.images() {
        print!(rt; " {image}")?;
    }
    println!(rt; "")
}
