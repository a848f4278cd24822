// Lines added for good, and on trial.
ghost use Rattle.std.specs.Prelude.{◌≡◌, ◌≤◌};
ghost use Rattle.elimination.specs.Halves.{Added, weight_of, weight_once};

use super::Half;
use crate::addition::Addition;

impl Half {
    // Adds line `from` to line `to` of the matrix, and so line `to` to line `from` of the inverse.
    pub(crate) fn add(&mut self, addition: Addition)
        ensures { Added addition self.old self.new }
    {
        let Addition { from, to, .. } = addition;
        let line = self.first[from as usize];
        self.first[to as usize] ^= line;
        let line = self.second[to as usize];
        self.second[from as usize] ^= line;
    }

    // In how many entries the two words that an addition changes differ from those of identity.
    fn weight(&self, addition: Addition) -> u32
        ensures value { result ≡ weight_of addition self.now }
        ensures small { result ≤ 128 }
    {
        let Addition { from, to, .. } = addition;
        (self.first[to as usize] ^ (1 << to)).count_ones()
            + (self.second[from as usize] ^ (1 << from)).count_ones()
    }

    // The same once the addition is made, on trial.
    fn weight_after(&mut self, addition: Addition) -> u32
        ensures same { self.new ≡ self.old }
        ensures value { result ≡ weight_once addition self.old }
        ensures small { result ≤ 128 }
    {
        let trial = Trial::new(self, addition);
        trial.weight()
    }

    // Before the addition, and after it.
    pub(crate) fn weights(&mut self, addition: Addition) -> (u32, u32)
        ensures same { self.new ≡ self.old }
        ensures before { result.0 ≡ weight_of addition self.old }
        ensures after { result.1 ≡ weight_once addition self.old }
        ensures small { result.1 ≤ 128 }
    {
        let after = self.weight_after(addition);
        (self.weight(addition), after)
    }
}

// An addition on trial: it is taken back when the trial ends.
struct Trial<'a> {
    half: &'a mut Half,
    addition: Addition,
}

impl<'a> Trial<'a> {
    fn new(half: &'a mut Half, addition: Addition) -> Trial<'a>
        ensures lent { result.half.ghost_name ≡ half.entry.ghost_name }
        ensures put { Added addition half.old result.half.now }
        ensures same { result.addition ≡ addition }
    {
        half.add(addition);
        Trial { half, addition }
    }

    fn weight(&self) -> u32
        ensures value { result ≡ weight_of self.now.addition self.now.half.now }
        ensures small { result ≤ 128 }
    {
        self.half.weight(self.addition)
    }
}

impl Drop for Trial<'_> {
    fn drop(self)
        ensures { Added self.entry.addition self.entry.half.now self.exit.0.now }
    {
        let Trial {
            half: lent,
            addition,
        } = self;
        lent.add(addition);
    }
}
