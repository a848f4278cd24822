// A call of a job and its answer.
use gates::refusal::Refusal;

#[derive(Clone, Copy)]
pub struct Step<C> {
    pub call: C,
    // None until the call is made.
    pub answer: Option<Result<(), Refusal>>,
}
