// The inverse of a matrix, by row additions.
ghost use Rattle.std.specs.Prelude.{◌≡◌, ℕ, ◌+◌, ◌<◌, ◌≤◌, ◌≢◌, ◌↔◌, true, IsTrue, slice_index};
ghost use Rattle.words.specs.Words.{bit};
ghost use Rattle.gates.specs.Cnots.{cnot};
ghost use Rattle.matrices.specs.Meanings.{rows_of, Inverted};
ghost use Rattle.matrices.specs.Solved.{Solved};

use super::Matrix;
use gates::cnot::Cnot;
use gates::refusal::Refusal;
use words::has_bit;

impl Matrix {
    // The matrix that undoes this one, unless two words share an image.
    pub fn inverse(&self) -> Result<Matrix, Refusal>
        ensures { Inverted self.now result }
    {
        if let Some((a, b)) = self.first_clash() {
            return Err(Refusal::SharedImage { a, b });
        }
        let mut solving = Solving {
            left: *self,
            made: Matrix::units(self.lines),
            done: 0,
        };
        while solving.done < self.lines {
            solving.clear_column();
        }
        Ok(solving.made)
    }

    // Whether entry (r, c) is 1.
    fn entry(&self, r: u8, c: u8) -> bool
        requires { r < self.now.lines }
        ensures { IsTrue result ↔ (bit (slice_index (rows_of self.now) r) c ≡ 1) }
    {
        has_bit(self.rows()[r as usize], c)
    }

    // Whether row `r` has a one in column `d` off the diagonal.
    fn has_other(&self, r: u8, d: u8) -> bool
        requires { r < self.now.lines }
        ensures { IsTrue result ↔ ((r ≢ d) × (bit (slice_index (rows_of self.now) r) d ≡ 1)) }
    {
        r != d && self.entry(r, d)
    }
}

// A matrix on its way to identity, of which so many columns are done, and what the same row additions have made of identity.
// `done` is a field and no counter of a loop, so that the type says which columns are solved; that one is left is asked by each
// step.
#[derive(Clone, Copy)]
struct Solving {
    left: Matrix,
    made: Matrix,
    done: u8,
    ghost same: { made.lines ≡ left.lines },
    ghost solved: { Solved left done },
}

impl Solving {
    ghost use Rattle.matrices.specs.Solving.{Added, Stepped};

    // The same row addition in both.
    fn add(&mut self, gate: Cnot)
        requires legal { cnot.legal self.old.left.lines gate ≡ true }
        requires open { self.old.done ≤ gate.control }
        ensures { Added gate self.old self.new }
    {
        self.left.put_output(gate);
        self.made.put_output(gate);
    }

    // The first row from `done` on with a one in column `done`.
    fn pivot_row(&self) -> u8
        requires { self.now.done < self.now.left.lines }
        ensures least { self.now.done ≤ result }
        ensures most { result < self.now.left.lines }
        ensures one { bit (slice_index (rows_of self.now.left) result) self.now.done ≡ 1 }
        ensures first { (k : ℕ) → self.now.done ≤ k → k < result → bit (slice_index (rows_of self.now.left) k) self.now.done ≡ 0 }
    {
        let d = self.done;
        (d..self.left.lines)
            .find(|r| self.left.entry(*r, d))
            .unwrap()
    }

    // Puts a one into entry (done, done).
    fn set_pivot(&mut self)
        requires { self.old.done < self.old.left.lines }
        ensures stepped { Stepped self.old self.new }
        ensures done { self.new.done ≡ self.old.done }
        ensures one { bit (slice_index (rows_of self.new.left) self.old.done) self.old.done ≡ 1 }
    {
        let d = self.done;
        let r = self.pivot_row();
        if r != d {
            self.add(Cnot {
                control: r,
                target: d,
            });
        }
    }

    // Makes column `done` that of identity.
    fn clear_column(&mut self)
        requires { self.old.done < self.old.left.lines }
        ensures stepped { Stepped self.old self.new }
        ensures done { self.new.done ≡ self.old.done + 1 }
    {
        let d = self.done;
        self.set_pivot();
        for i in 0..self.left.lines {
            if self.left.has_other(i, d) {
                self.add(Cnot {
                    control: d,
                    target: i,
                });
            }
        }
        self.done += 1;
    }
}
