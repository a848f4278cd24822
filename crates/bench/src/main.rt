// How many gates runs find: on random matrices and tables, with the time they take if an argument is given, and on all tables
// of three lines; and how many places the run of a matrix needs.
#![tactic(auto)]

mod exhaustive;
mod places;
mod random;

use books::Book;
use elimination::Elimination;
use exhaustive::run_all_tables;
use gates::cnot::Cnot;
use gates::gate::Gate;
use gates::mct::Mct;
use mapping::rule::RowMapping;
use pieces::piece::Piece;
use pieces::rule::Rule;
use places::tell_places;
use random::Random;
use std::rt::Clock;
use std::time::Instant;
use std::{env, io};

const RUNS: u64 = 50;

// What stands in a place that no gate has.
const CNOT: Cnot = Cnot {
    control: 0,
    target: 0,
};

const MCT: Mct = Mct {
    controls: 0,
    target: 0,
};

// What some runs came to.
#[derive(Clone, Copy, Default)]
struct Tally {
    gates: u64,
    micros: u64,
}

fn main(rt: HostRuntime) -> io::Result<()> {
    let timed = env::args(&rt)?.count() > 1;
    let mut random = Random::new(1);
    for lines in [8, 16, 32, 64] {
        let mut places = [CNOT; 8127];
        let tally = run_many(&rt, &Elimination, || random.matrix(lines), &mut places)?;
        tell(&rt, "matrices", lines, tally, timed)?;
    }
    for lines in [4, 6, 8] {
        let mut places = [MCT; 2040];
        let tally = run_many(&rt, &RowMapping, || random.table(lines), &mut places)?;
        tell(&rt, "tables", lines, tally, timed)?;
    }
    run_all_tables(&rt)?;
    tell_places(&rt)
}

// Runs a rule on one piece after another, each drawn as it is wanted.
fn run_many<G, P, R, D>(
    clock: &impl Clock,
    rule: &R,
    mut draw: D,
    places: &mut [G],
) -> io::Result<Tally>
where
    G: Gate,
    P: Piece<G> + Drop,
    R: Rule<G, P>,
    D: FnMut() -> Option<P>,
    requires { (d : D) → D.pre d }
{
    let mut tally = Tally::default();
    for _ in 0..RUNS {
        if let Some(mut piece) = draw() {
            let mut book = Book::new(places);
            run(clock, rule, &mut piece, &mut book, &mut tally)?;
        }
    }
    Ok(tally)
}

// Runs a rule on a piece, and adds the gates found and the time taken to the tally.
fn run<G: Gate, P: Piece<G>, R: Rule<G, P>>(
    clock: &impl Clock,
    rule: &R,
    piece: &mut P,
    book: &mut Book<G>,
    tally: &mut Tally,
) -> io::Result<()> {
    let start = Instant::now(clock)?;
    let ran = rule.run(piece, book);
    let took = start.elapsed(clock)?;
    if ran.is_ok() {
        tally.gates = tally.gates.saturating_add(book.len() as u64);
        tally.micros = tally
            .micros
            .saturating_add(u64::try_from(took.as_micros()).unwrap_or(u64::MAX));
    }
    Ok(())
}

// The average number of gates, to a hundredth, and the runs in a second if they were timed.
fn tell(rt: &impl Print, what: &str, lines: u8, tally: Tally, timed: bool) -> io::Result<()> {
    let hundredths = tally.gates.saturating_mul(100) / RUNS;
    let whole = hundredths / 100;
    let part = hundredths % 100;
    print!(rt; "{what} of {lines} lines: {RUNS} runs, {whole}.{part:02} gates on average")?;
    if timed && tally.micros > 0 {
        let each = tally.micros / RUNS;
        let rate = RUNS * 1_000_000 / tally.micros;
        print!(rt; ", {each} microseconds each, {rate} runs in a second")?;
    }
    println!(rt; "")
}
