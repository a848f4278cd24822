// The lines of a body, as a pen writes them.
ghost use Rattle.std.specs.Prelude.{◌≡◌, ℕ, ◌<◌, List, map, length, decimal};
ghost use Rattle.sheet.specs.Render.{row_text, cnot_text, mct_text, lines_text};
ghost use Rattle.answers.specs.Pens.{Writes};
ghost use Rattle.answers.specs.LineLaws.{row_short, decimal_short, cnot_short, mct_short};

use crate::pen::Pen;
use gates::cnot::Cnot;
use gates::mct::Mct;
use words::has_bit;

// What a line of a body on n lines can hold.
pub(crate) trait Line: Copy {
    ghost text: { ℕ → Self → List ℕ };

    // Writes the text.
    fn write(self, n: u8, pen: &mut Pen)
        ensures { Writes pen.old (text n self) pen.new };

    ghost short: { (n : ℕ) (x : Self) → n < 256 → length (text n x) < 256 };
}

// A row of a matrix: its first n digits, column 0 first.
impl Line for u64 {
    ghost text = { row_text };

    ghost short = { row_short };

    #[tactic(auto, using(crate::proofs::Digits::digit_steps))]
    fn write(self, n: u8, pen: &mut Pen) {
        for line in 0..n {
            pen.byte(b'0' + u8::from(has_bit(self, line)));
        }
    }
}

// An image.
impl Line for u8 {
    ghost text = { λ _ x. decimal x };

    ghost short = { λ _ x _. decimal_short x };

    fn write(self, n: u8, pen: &mut Pen) {
        pen.number(self);
    }
}

// A CNOT gate: its control and its target.
impl Line for Cnot {
    ghost text = { λ _ g. cnot_text g };

    ghost short = { λ _ g _. cnot_short g };

    fn write(self, n: u8, pen: &mut Pen) {
        pen.numbers(&[self.control.into(), self.target.into()]);
    }
}

// An MCT gate: its controls, rising, and its target.
impl Line for Mct {
    ghost text = { λ _ g. mct_text g };

    ghost short = { λ _ g _. mct_short g };

    #[tactic(auto, using(crate::proofs::Digits::control_steps))]
    fn write(self, n: u8, pen: &mut Pen) {
        for line in 0..8 {
            if has_bit(self.controls.into(), line) {
                pen.short_number(line.into());
                pen.byte(b' ');
            }
        }
        pen.short_number(self.target.into());
    }
}

// A word of a clash.
#[derive(Clone, Copy)]
pub(crate) struct Word(pub u64);

impl Line for Word {
    ghost text = { λ _ w. decimal w.0 };

    ghost short = { λ _ w _. decimal_short w.0 };

    fn write(self, n: u8, pen: &mut Pen) {
        pen.number(self.0);
    }
}

impl Pen<'_> {
    // The lines of a body on n lines.
    #[tactic(auto, using(crate::proofs::Pens::line_steps))]
    pub(crate) fn lines<L: Line>(&mut self, n: u8, lines: &[L])
        ensures { Writes self.old (lines_text (map (L.text n) lines.now)) self.new }
    {
        for line in lines {
            line.write(n, self);
            self.byte(b'\n');
        }
    }
}
