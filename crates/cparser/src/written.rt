use cevents::Event;
use std::marker::Model;

/// What a reader has written of a tree.
///
/// It is seen as its fields, the events as a list.
#[derive(Drop)]
pub struct Written {
    /// Whether a tree is read. Where none is, what is written makes none.
    pub found: bool,
    /// How many tokens of the row stand before its end.
    pub at: usize,
    /// The parts of it, in the order in which they end.
    pub events: Vec<Event>,
}

impl Model for Written {
    ghost use Rattle.cparser.specs.Writings.{Writing};

    ghost Value = { Writing };

    ghost view = { λ written. record { found = written.found; at = written.at; events = written.events.items } };
}
