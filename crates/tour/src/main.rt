// A tour of what is built: each task is done on values that a laboratory might send, and accounted for in print.
#![tactic(auto)]

mod folding;
mod shortening;
mod stop;
mod telling;
mod working;

use books::Book;
use folding::{tell_clash, tell_matrix, tell_table};
use gates::cnot::Cnot;
use gates::end::End;
use gates::mct::Mct;
use job::call::Edit;
use job::step::Step;
use shortening::shorten_and_tell;
use std::io;
use stop::task;
use tables::table::Table;
use takers::list::GateList;
use working::work_by_hand;

fn main(rt: HostRuntime) -> io::Result<()> {
    shorten_cnots(&rt)?;
    shorten_mcts(&rt)?;
    shorten_on_many_lines(&rt)?;
    be_declined(&rt)?;
    fold_gates(&rt)?;
    look_for_clashes(&rt)?;
    work(&rt)
}

fn cnot(control: u8, target: u8) -> Cnot {
    Cnot { control, target }
}

fn mct(controls: u8, target: u8) -> Mct {
    Mct { controls, target }
}

fn shorten_cnots(rt: &impl Print) -> io::Result<()> {
    task(rt, "CNOT gates on 3 lines are shortened.", || {
        let gates = [
            cnot(2, 0),
            cnot(0, 1),
            cnot(1, 2),
            cnot(1, 2),
            cnot(0, 1),
            cnot(0, 2),
            cnot(1, 2),
        ];
        shorten_and_tell(rt, 3, &gates, &mut [cnot(0, 0); 7], &mut [cnot(0, 0); 7])
    })
}

fn shorten_mcts(rt: &impl Print) -> io::Result<()> {
    task(rt, "MCT gates on 3 lines are shortened.", || {
        let gates = [
            mct(0b000, 0),
            mct(0b011, 2),
            mct(0b011, 2),
            mct(0b101, 1),
            mct(0b010, 0),
        ];
        shorten_and_tell(rt, 3, &gates, &mut [mct(0, 0); 5], &mut [mct(0, 0); 5])
    })
}

fn shorten_on_many_lines(rt: &impl Print) -> io::Result<()> {
    task(rt, "CNOT gates on 12 lines are shortened.", || {
        let gates = [cnot(0, 11), cnot(11, 1), cnot(11, 1), cnot(1, 0)];
        shorten_and_tell(rt, 12, &gates, &mut [cnot(0, 0); 4], &mut [cnot(0, 0); 4])
    })
}

fn be_declined(rt: &impl Print) -> io::Result<()> {
    task(rt, "No CNOT gates are shortened on 65 lines.", || {
        let gates = [cnot(0, 1)];
        shorten_and_tell(rt, 65, &gates, &mut [cnot(0, 0); 1], &mut [cnot(0, 0); 1])
    })?;
    task(rt, "A gate is illegal on 3 lines.", || {
        let gates = [cnot(0, 1), cnot(0, 3)];
        shorten_and_tell(rt, 3, &gates, &mut [cnot(0, 0); 2], &mut [cnot(0, 0); 2])
    })?;
    task(rt, "Three gates want more than two places.", || {
        let gates = [cnot(0, 1), cnot(1, 0), cnot(0, 1)];
        shorten_and_tell(rt, 3, &gates, &mut [cnot(0, 0); 2], &mut [cnot(0, 0); 2])
    })
}

fn fold_gates(rt: &impl Print) -> io::Result<()> {
    task(rt, "CNOT gates on 3 lines become a matrix.", || {
        tell_matrix(rt, 3, &[cnot(2, 0), cnot(0, 1), cnot(1, 2)])
    })?;
    task(rt, "MCT gates on 3 lines become a table.", || {
        tell_table(rt, 3, &[mct(0b000, 0), mct(0b101, 1), mct(0b010, 0)])
    })
}

fn look_for_clashes(rt: &impl Print) -> io::Result<()> {
    task(rt, "A matrix on 2 lines has a clash.", || {
        tell_clash(rt, 2, &[0b11, 0b11])
    })?;
    task(rt, "A matrix on 3 lines has none.", || {
        tell_clash(rt, 3, &[0b111, 0b110, 0b100])
    })?;
    task(rt, "A row is too large for 2 lines.", || {
        tell_clash(rt, 2, &[0b11, 0b100])
    })
}

fn step(call: Edit<Mct>) -> Step<Edit<Mct>> {
    Step { call, answer: None }
}

fn work(rt: &impl Print) -> io::Result<()> {
    task(rt, "A job by hand on the table 0 2 3 1.", || {
        let table = Table::new(2, &[0, 2, 3, 1])?;
        let mut steps = [
            step(Edit::Put(End::Output, mct(0b01, 1))),
            step(Edit::Put(End::Input, mct(0b01, 1))),
            step(Edit::TakeBack(End::Output)),
            step(Edit::TakeBack(End::Output)),
            step(Edit::Put(End::Output, mct(0b01, 2))),
            step(Edit::Put(End::Output, mct(0b10, 0))),
        ];
        let mut found = [mct(0, 0); 8];
        let mut delivered = [mct(0, 0); 8];
        let mut list = GateList::new(&mut delivered);
        list.restart(2)?;
        let mut book = Book::new(&mut found);
        work_by_hand(rt, table, &mut steps, &mut book, &mut list)
    })
}
