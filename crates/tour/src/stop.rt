// Why a task of the tour ends before its last line.
use crate::telling::print_refusal;
use gates::refusal::Refusal;
use std::io;

#[derive(Drop)]
pub(crate) enum Stop {
    // A call declined.
    Declined(Refusal),
    // A line could not be printed.
    Unprinted(io::Error),
}

impl From<Refusal> for Stop {
    fn from(why: Refusal) -> Stop {
        Stop::Declined(why)
    }
}

impl From<io::Error> for Stop {
    fn from(error: io::Error) -> Stop {
        Stop::Unprinted(error)
    }
}

// Prints the title of a task, and does it. A refusal is printed, and the tour goes on.
pub(crate) fn task<F>(rt: &impl Print, title: &str, task: F) -> io::Result<()>
where
    F: FnOnce() -> Result<(), Stop>,
    requires { F.IsAlwaysCallable task }
{
    println!(rt; "{title}")?;
    match task() {
        Ok(()) => Ok(()),
        Err(Stop::Declined(why)) => print_refusal(rt, why),
        Err(Stop::Unprinted(error)) => Err(error),
    }
}
