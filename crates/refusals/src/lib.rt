//! What every refused call answers, whatever layer refuses: a number, the layer and a place.
#![tactic(auto)]

ghost use Rattle.refusals.specs.Shown.{layer_word, refusal_words};
ghost use Rattle.std.specs.Prelude.{Some};

use std::fmt;

/// The layer that a refusal comes from.
#[derive(Clone, Copy, PartialEq, Eq, Debug)]
pub enum Layer {
    File,
    Table,
    Prices,
    Book,
}

/// A refusal by its number, with the layer it comes from and the place it is about, 0 if none is named: what is printed,
/// which has a number there in any case. Each layer that refuses has an enum of its faults, and turns them into this by
/// `From`.
#[derive(Clone, Copy, PartialEq, Eq, Debug)]
pub struct Refusal {
    pub number: u32,
    pub layer: Layer,
    pub place: usize,
}

impl fmt::Display for Layer {
    ghost output = { λ x. Some (layer_word x) };

    fn fmt<W: fmt::Write>(&self, f: &mut fmt::Formatter<W>) -> fmt::Result {
        f.write_str(match self {
            Layer::File => "file",
            Layer::Table => "table",
            Layer::Prices => "prices",
            Layer::Book => "book",
        })
    }
}

impl fmt::Display for Refusal {
    ghost output = { λ x. Some (refusal_words x) };

    fn fmt<W: fmt::Write>(&self, f: &mut fmt::Formatter<W>) -> fmt::Result {
        write!(f, "refused {} {} {}", self.number, self.layer, self.place)
    }
}
