// How the tour prints gates, rows and refusals.
use gates::gate::Gate;
use gates::refusal::Refusal;
use std::{fmt, io};
use words::has_bit;

pub(crate) fn print_gates<G: Gate + fmt::Display>(
    rt: &impl Print,
    what: &str,
    gates: &[G],
) -> io::Result<()> {
    let count = gates.len();
    print!(rt; "  {what} {count}:")?;
    for gate in gates {
        print!(rt; " {gate}")?;
    }
    println!(rt; "")
}

// A word by its bits, line 0 first.
pub(crate) fn print_bits(rt: &impl Print, n: u8, word: u64) -> io::Result<()> {
    print!(rt; "  ")?;
    for line in 0..n {
        let bit = has_bit(word, line) as u8;
        print!(rt; "{bit}")?;
    }
    println!(rt; "")
}

pub(crate) fn print_refusal(rt: &impl Print, why: Refusal) -> io::Result<()> {
    let number = why.number();
    println!(rt; "  declined by {number}: {why}")
}

// Prints the image of each word that has one under both maps, up to the first that differs, and tells whether none did.
pub(crate) fn tell_images<A, B>(rt: &impl Print, image: A, other: B) -> io::Result<bool>
where
    A: Fn(u64) -> Result<u64, Refusal>,
    B: Fn(u64) -> Result<u64, Refusal>,
    requires image { A.IsAlwaysCallable image }
    requires other { B.IsAlwaysCallable other }
{
    for word in 0..256 {
        if let (Ok(image), Ok(other)) = (image(word), other(word)) {
            println!(rt; "  {word} becomes {image}")?;
            if image != other {
                return Ok(false);
            }
        }
    }
    Ok(true)
}
