//! How a call that is turned down says so: a number, the layer that refuses, and a place.

#![tactic(auto)]

ghost use Rattle.std.specs.Prelude.{◌≡◌, ◌≤◌, length, Some};
ghost use Rattle.refusals.specs.Texts.{layer_name, refusal_told};

use std::fmt;

/// The layer that refuses.
#[derive(Clone, Copy, PartialEq, Eq, Debug)]
pub enum Layer {
    /// Files: their bytes, fields and texts.
    File,
    /// A source of voltages.
    Source,
    /// A campaign.
    Campaign,
    /// A drawing.
    Drawing,
}

impl Layer {
    /// The name, as it is printed: `file`, `source`, `campaign` or `drawing`.
    pub fn name(self) -> &'static str
        ensures name { result.now ≡ layer_name self }
        ensures short { length result.now ≤ 8 }
    {
        match self {
            Layer::File => "file",
            Layer::Source => "source",
            Layer::Campaign => "campaign",
            Layer::Drawing => "drawing",
        }
    }
}

impl fmt::Display for Layer {
    ghost output = { λ layer. Some (layer_name layer) };

    fn fmt<W: fmt::Write>(&self, f: &mut fmt::Formatter<W>) -> fmt::Result {
        f.pad(self.name())
    }
}

/// A refusal, as it is printed. The faults that it is made from are enums, one for each layer.
#[derive(Clone, Copy, PartialEq, Eq, Debug)]
pub struct Refusal {
    /// Which refusal it is, by its number.
    pub number: u8,
    /// The layer that refuses.
    pub layer: Layer,
    /// What the refusal points at: the position of a byte in a file, counted from 0, a bus, an inverter, an index or a length.
    pub place: usize,
}

impl fmt::Display for Refusal {
    ghost output = { λ refusal. Some (refusal_told refusal) };

    fn fmt<W: fmt::Write>(&self, f: &mut fmt::Formatter<W>) -> fmt::Result {
        let Refusal {
            number,
            layer,
            place,
        } = self;
        write!(f, "refusal {number}, layer {layer}, place {place}")
    }
}
