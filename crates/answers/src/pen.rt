// A pen over a lent buffer. Its place may pass the buffer's end: the bytes there are counted and left out.
ghost use Rattle.std.specs.Prelude.{◌≡◌, [], ◌∷◌, decimal};
ghost use Rattle.sheet.specs.Render.{numbers_text};
ghost use Rattle.answers.specs.Pens.{Writes};

use itoa::{Buffer, Integer};

// The buffer, and where the next byte goes. A pen never fails. No `write!` goes to it: std never says that a `Display` answers
// Ok.
#[derive(Drop)]
pub(crate) struct Pen<'a> {
    pub(crate) out: &'a mut [u8],
    pub(crate) at: usize,
}

impl Pen<'_> {
    // A pen that counts bytes and keeps none.
    pub(crate) fn nowhere() -> Pen<'static>
        ensures out { result.out.now ≡ [] }
        ensures at { result.at ≡ 0 }
    {
        Pen {
            out: &mut [],
            at: 0,
        }
    }

    // One byte. By index, since a contract cannot follow a write through `get_mut`.
    #[tactic(auto, unfolding(crate::specs::Pens::wrote))]
    pub(crate) fn byte(&mut self, b: u8)
        ensures { Writes self.old (b ∷ []) self.new }
    {
        if self.at < self.out.len() {
            self.out[self.at] = b;
            self.at += 1;
        } else {
            self.at = self.at.saturating_add(1);
        }
    }

    // Bytes, in order.
    #[tactic(auto, using(crate::proofs::Pens::byte_steps))]
    pub(crate) fn bytes(&mut self, bytes: &[u8])
        ensures { Writes self.old bytes.now self.new }
    {
        for b in bytes {
            self.byte(*b);
        }
    }

    // The decimal digits of a number.
    pub(crate) fn number<N: Integer>(&mut self, n: N)
        ensures { Writes self.old (N.text n) self.new }
    {
        let mut digits = Buffer::new();
        self.bytes(digits.format(n).as_bytes());
    }

    // The decimal digits of a number that most often has one.
    #[tactic(auto, using(crate::proofs::Pens::wrote_one_digit))]
    pub(crate) fn short_number(&mut self, n: u64)
        ensures { Writes self.old (decimal n) self.new }
    {
        if n < 10 {
            self.byte(b'0' + n as u8);
        } else {
            self.number(n);
        }
    }

    // Numbers, with one space between.
    #[tactic(auto, using(crate::proofs::Pens::number_steps))]
    pub(crate) fn numbers(&mut self, numbers: &[u64])
        ensures { Writes self.old (numbers_text numbers.now) self.new }
    {
        let [others @ .., last] = numbers else {
            return;
        };
        for n in others {
            self.short_number(*n);
            self.byte(b' ');
        }
        self.short_number(*last);
    }
}
