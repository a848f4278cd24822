// Why a sheet is declined, and where.
ghost use Rattle.std.specs.Prelude.{◌≡◌};
ghost use Rattle.sheet.specs.Fault.{fault, layer_name};
ghost use Rattle.sheet.specs.declared.fault.Layer.TheVariants as layer;

use gates::refusal::Refusal;

// The part of the work in which a fault is found.
#[derive(Clone, Copy)]
pub enum Layer {
    Contents,
    Body,
    Work,
}

// The reason, the sheet line and the layer.
#[derive(Clone, Copy)]
pub struct Fault {
    pub why: Refusal,
    pub line: u64,
    pub layer: Layer,
}

impl Fault {
    // A fault of a line that this layer works on.
    pub(crate) fn at(why: Refusal, line: u64, layer: Layer) -> Fault
        ensures { result ≡ fault why line layer }
    {
        Fault { why, line, layer }
    }

    // A fault of a line of a body, or of what stands after the last.
    pub(crate) fn in_body(why: Refusal, line: u64) -> Fault
        ensures { result ≡ fault why line layer.Body }
    {
        Fault {
            why,
            line,
            layer: Layer::Body,
        }
    }
}

impl Layer {
    // The word by which a fault tells its layer: a text and no Display, since of a Display nothing says that it answers Ok.
    pub fn name(self) -> &'static str
        ensures { result.now ≡ layer_name self }
    {
        match self {
            Layer::Contents => "contents",
            Layer::Body => "body",
            Layer::Work => "work",
        }
    }
}
