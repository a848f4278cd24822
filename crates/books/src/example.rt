// Four gates found on 3 lines, and their circuit order.
ghost use Rattle.std.specs.Prelude.{◌≡◌, ◌-◌, ◌≤◌, Some};
ghost use Rattle.books.specs.Ends.{put};
ghost use Rattle.books.specs.Books.{ends, free};

use crate::Book;
use gates::cnot::Cnot;
use gates::end::End;

// Found at the input end (0, 1) and (1, 0), at the output end (0, 2) and (1, 2): in circuit order
// they stand as (0, 1), (1, 0), (1, 2), (0, 2).
pub fn circuit_order() -> (Option<Cnot>, Option<Cnot>, Option<Cnot>, Option<Cnot>)
    ensures { result ≡ (Some (record { control = 0; target = 1 }), Some (record { control = 1; target = 0 }), Some (record { control = 1; target = 2 }), Some (record { control = 0; target = 2 })) }
{
    let mut memory = [cnot(0, 1); 4];
    let mut book = Book::new(&mut memory);
    find(&mut book, End::Input, cnot(0, 1));
    find(&mut book, End::Input, cnot(1, 0));
    find(&mut book, End::Output, cnot(0, 2));
    find(&mut book, End::Output, cnot(1, 2));
    (book.gate(0), book.gate(1), book.gate(2), book.gate(3))
}

fn cnot(control: u8, target: u8) -> Cnot
    ensures { result ≡ record { control = control; target = target } }
{
    Cnot { control, target }
}

// Puts a gate, for which a place is free, at an end.
#[tactic(auto, using(crate::proofs::PushLaws::accepted, crate::proofs::PushLaws::pushed_free))]
fn find<G: Copy>(book: &mut Book<G>, end: End, gate: G)
    requires { 1 ≤ free book.old }
    ensures ends { ends book.new ≡ put end gate (ends book.old) }
    ensures free { free book.new ≡ free book.old - 1 }
{
    let _ = book.push(end, gate);
}
