// The calls of a job, between its opening and its end.
use gates::end::End;

#[derive(Clone, Copy)]
pub enum Edit<G> {
    // A gate found at an end.
    Put(End, G),
    // The last gate of an end is taken back.
    TakeBack(End),
}

#[derive(Clone, Copy)]
pub enum Call<G> {
    ByHand(Edit<G>),
    // Only for pieces that have a run.
    Run,
}
