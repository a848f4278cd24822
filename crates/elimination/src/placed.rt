// A gate and the end at which it goes in.
use gates::cnot::Cnot;
use gates::end::End;

#[derive(Clone, Copy)]
pub(crate) struct Placed {
    pub(crate) end: End,
    pub(crate) gate: Cnot,
}

// What a list keeps in its unused places. By hand: no end is the usual one.
impl Default for Placed {
    fn default() -> Placed {
        Placed {
            end: End::Input,
            gate: Cnot {
                control: 0,
                target: 0,
            },
        }
    }
}
