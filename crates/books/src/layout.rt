// Where in the places the gates of a book stand.
ghost use Rattle.std.specs.Prelude.{◌≡◌, ◌<◌, reverse};
ghost use Rattle.books.specs.Ends.{found, last};
ghost use Rattle.books.specs.Books.{counted, places, ends};
ghost use Rattle.books.specs.Places.{Room, place};

use crate::Book;
use gates::end::End;

impl<'a, G: Copy> Book<'a, G> {
    // The place at which the next gate of an end is written.
    pub(crate) fn place(&self, end: End) -> usize
        requires { Room self.now }
        ensures is { result ≡ place end self.now }
        ensures within { result < places self.now }
    {
        match end {
            End::Input => self.inputs,
            End::Output => self.places() - self.outputs - 1,
        }
    }

    // The gates in circuit order, in two slices: the input gates, and the output gates with the last found first.
    #[tactic(auto, using(std::proofs::lemmas::List::take_min, crate::proofs::LaidLaws::back_slice))]
    pub fn as_slices(&self) -> (&[G], &[G])
        ensures front { result.0.now ≡ (ends self.now).ins }
        ensures back { result.1.now ≡ reverse (ends self.now).outs }
    {
        let places = &self.places[..self.places()];
        let back = places.len() - self.outputs;
        (&places[..self.inputs], &places[back..])
    }

    // The gate that was found last at an end.
    #[tactic(auto, using(crate::proofs::EndLaws::last_get, crate::proofs::EndLaws::first_reversed))]
    pub(crate) fn last(&self, end: End) -> Option<G>
        ensures { result ≡ last (found end (ends self.now)) }
    {
        let (inputs, outputs) = self.as_slices();
        match end {
            End::Input => inputs.last().copied(),
            End::Output => outputs.first().copied(),
        }
    }
}
