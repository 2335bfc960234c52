use cevents::Event;
use cgrammar::Scope;
use std::marker::Model;

/// What a reader has written of a whole row as an item of a file, and the names in scope behind it.
///
/// It is seen as its fields, the events as a list.
#[derive(Drop)]
pub struct WrittenItem {
    /// Whether the row is an item. Where it is none, what is written makes none.
    pub found: bool,
    /// The parts of it, in the order in which they end.
    pub events: Vec<Event>,
    /// The names in scope behind it.
    pub scope: Scope,
}

impl Model for WrittenItem {
    ghost use Rattle.cparser.specs.Writings.{ItemWriting};

    ghost Value = { ItemWriting };

    ghost view = { λ written. record { found = written.found; events = written.events.items; scope = written.scope } };
}
