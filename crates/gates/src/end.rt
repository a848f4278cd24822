// The two ends of a circuit, at which gates are found.
#[derive(Clone, Copy, PartialEq, Eq, Debug)]
pub enum End {
    Input,
    Output,
}
