// A laboratory's gates are taken into a gate list, and from there into another through a canceller.
ghost use Rattle.std.specs.Prelude.{◌≡◌, IfOk};
ghost use Rattle.words.specs.Maps.{Same};
ghost use Rattle.gates.specs.Circuits.{through};
ghost use Rattle.takers.specs.GateLists.{list_meaning};

use crate::stop::Stop;
use crate::telling::print_gates;
use gates::gate::Gate;
use gates::probed::Probed;
use gates::refusal::Refusal;
use std::fmt;
use takers::feed::feed;
use takers::list::GateList;
use takers::shorten::shorten;
use takers::taker::Taker;
use words::unit;

// Up to so many lines the image of every word is printed, and above it those of the unit words.
const FEW_LINES: u8 = 3;

// Shortens the gates, and prints what is left, what it makes of words, and that the map is still the same.
pub(crate) fn shorten_and_tell<G: Probed + fmt::Display>(
    rt: &impl Print,
    n: u8,
    gates: &[G],
    given_memory: &mut [G],
    left_memory: &mut [G],
) -> Result<(), Stop> {
    let given = listed(n, gates, given_memory)?;
    print_gates(rt, "given", given.gates())?;
    let left = shortened(&given, left_memory)?;
    let cancelled = given.gates().len().saturating_sub(left.gates().len());
    println!(rt; "  cancelled {cancelled}")?;
    print_gates(rt, "left", left.gates())?;
    print_images(rt, &left)?;
    if given.same_map(&left)? {
        println!(rt; "  the map is the same")?;
    } else {
        println!(rt; "  the map is another")?;
    }
    Ok(())
}

// The gates as a list on n lines.
fn listed<'a, G: Gate>(n: u8, gates: &[G], memory: &'a mut [G]) -> Result<GateList<'a, G>, Refusal>
    ensures { IfOk result (λ l. (l.lines ≡ n) × Same n (list_meaning G.Gate.kind l).map (through G.Gate.kind n gates.now)) }
{
    let mut list = GateList::new(memory);
    list.restart(n)?;
    feed(gates, &mut list)?;
    Ok(list)
}

// The gates of a list that do not cancel, as another list on as many lines.
fn shortened<'a, G: Gate>(
    given: &GateList<G>,
    memory: &'a mut [G],
) -> Result<GateList<'a, G>, Refusal>
    ensures { IfOk result (λ l. (l.lines ≡ given.now.lines) × Same given.now.lines (list_meaning G.Gate.kind l).map (list_meaning G.Gate.kind given.now).map) }
{
    let mut list = GateList::new(memory);
    list.restart(given.lines())?;
    let (list, answer) = shorten(given.gates(), list);
    answer?;
    Ok(list)
}

fn print_images<G: Gate>(rt: &impl Print, list: &GateList<G>) -> Result<(), Stop> {
    let n = list.lines();
    if n <= FEW_LINES {
        for word in 0..1u64 << n {
            print_image(rt, list, word)?;
        }
    } else {
        for line in 0..n {
            print_image(rt, list, unit(line))?;
        }
    }
    Ok(())
}

fn print_image<G: Gate>(rt: &impl Print, list: &GateList<G>, word: u64) -> Result<(), Stop> {
    let image = list.image(word)?;
    println!(rt; "  {word} becomes {image}")?;
    Ok(())
}
