ghost use Rattle.std.specs.Prelude.{◌≡◌, ◌+◌, ◌≤◌, IfOk, IsTrue, drop, length};
ghost use Rattle.cgrammar.specs.Firsts.{begins_type, begins_declaration};
ghost use Rattle.cgrammar.specs.Outcomes.{has_mark, has_first};
ghost use Rattle.cgrammar.specs.ReadTypes.{star_count};
ghost use Rattle.cgrammar.specs.Terminals.{is_word, is_name, begins_with_typedef};
ghost use Rattle.cparser.specs.State.{rest, goes, point_of};
ghost use Rattle.cparser.specs.Writings.{item_written_of, start_at, written_of};

use crate::numbers::number;
use crate::point::Point;
use crate::status::Status;
use crate::written::Written;
use crate::written_item::WrittenItem;
use cbase::NoMemory;
use cevents::Event;
use cgrammar::{Scope, Terminal, begins_declaration, begins_type, stars_length};
use std::alloc::Global;
use std::marker::Model;

/// A place in a row of tokens, with the names in scope there, and what is written of the tree that is read.
///
/// It is seen as its fields, less the allocator, the row and the events as lists.
#[derive(Drop)]
pub struct Reader<'a> {
    /// Where its memory comes from. It is not seen.
    pub alloc: Global,
    /// The whole row, with the tokens that are read already.
    pub row: &'a [Terminal<'a>],
    /// How many tokens of the row stand before its place. It is no number in the text: the row has no tokens that are passed
    /// over.
    pub at: usize,
    /// Whether it goes on.
    pub status: Status,
    /// How many levels the deepest of the parts has that are read so far, of the tree that is read now.
    pub levels: usize,
    /// Whether the operand that is read last is a unary expression, and no cast. An operator may assign to such a one alone
    /// (C11 6.5.16).
    pub unary: bool,
    /// The names in scope at its place (C11 6.2.1).
    pub scope: Scope,
    /// What is written so far: the parts that are read to their end, in the order in which they end.
    pub events: Vec<Event>,
}

impl<'a> Model for Reader<'a> {
    ghost use Rattle.cparser.specs.State.{State};

    ghost Value = { State };

    ghost view = { λ reader. record { row = reader.row.now; at = reader.at; status = reader.status; levels = reader.levels; unary = reader.unary; scope = reader.scope; events = reader.events.items } };
}

impl<'a> Reader<'a> {
    /// A reader at the token of the row with the number `at`, which has read nothing yet.
    pub fn new(alloc: Global, row: &'a [Terminal<'a>], at: usize, scope: Scope) -> Reader<'a>
        ensures { result ≡ start_at row.now at scope }
    {
        Reader {
            alloc,
            row,
            at,
            status: Status::Going,
            levels: 0,
            unary: false,
            scope,
            events: Vec::new(alloc),
        }
    }

    /// What is written of an item in the end, and the names in scope behind it.
    pub fn into_item(self) -> WrittenItem
        ensures { result ≡ item_written_of self.entry }
    {
        WrittenItem {
            found: matches!(self.status, Status::Going),
            events: self.events,
            scope: self.scope,
        }
    }

    /// What is written in the end.
    pub fn into_written(self) -> Written
        ensures { result ≡ written_of self.entry }
    {
        Written {
            found: !matches!(self.status, Status::Nothing),
            at: self.at,
            events: self.events,
        }
    }

    /// The tokens that are left.
    pub fn rest(&self) -> &'a [Terminal<'a>]
        ensures { result.now ≡ rest self.now }
    {
        behind(self.row, self.at)
    }

    /// How many tokens are left.
    pub fn left(&self) -> usize
        ensures { result ≡ length (rest self.now) }
    {
        self.rest().len()
    }

    /// Whether it goes on: what was read so far is read to its end, and more may follow.
    pub fn goes(&self) -> bool
        ensures { result ≡ goes self.now }
    {
        matches!(self.status, Status::Going)
    }

    /// The place, to go back to it.
    pub fn point(&self) -> Point
        ensures { result ≡ point_of self.now }
    {
        Point {
            at: self.at,
            events: self.events.len(),
        }
    }

    /// The number of the token there, for an event.
    pub(crate) fn here(&self) -> Result<u32, NoMemory>
        ensures { IfOk result (λ at. at ≡ self.now.at) }
    {
        number(self.at)
    }

    /// Whether the mark stands there.
    pub fn has_mark(&self, bytes: &[u8]) -> bool
        ensures is { result ≡ has_mark bytes.now (rest self.now) }
        ensures more { IsTrue result → 1 ≤ length (rest self.now) }
    {
        match self.rest() {
            [] => false,
            [first, ..] => first.is_mark(bytes),
        }
    }

    /// Whether the word stands there.
    pub fn has_word(&self, bytes: &[u8]) -> bool
        ensures is { result ≡ has_first (is_word bytes.now) (rest self.now) }
        ensures more { IsTrue result → 1 ≤ length (rest self.now) }
    {
        match self.rest() {
            [] => false,
            [first, ..] => first.is_word(bytes),
        }
    }

    /// Whether a name stands there.
    pub fn has_name(&self) -> bool
        ensures is { result ≡ has_first is_name (rest self.now) }
        ensures more { IsTrue result → 1 ≤ length (rest self.now) }
    {
        match self.rest() {
            [] => false,
            [first, ..] => first.is_name(),
        }
    }

    /// Whether a type begins there.
    pub fn has_type(&self) -> bool
        ensures { result ≡ has_first (begins_type self.now.scope) (rest self.now) }
    {
        match self.rest() {
            [] => false,
            [first, ..] => begins_type(&self.scope, first),
        }
    }

    /// Whether a declaration begins there.
    pub fn has_declaration(&self) -> bool
        ensures { result ≡ has_first (begins_declaration self.now.scope) (rest self.now) }
    {
        match self.rest() {
            [] => false,
            [first, ..] => begins_declaration(&self.scope, first),
        }
    }

    /// Whether the name of a typedef stands there.
    pub fn has_typedef(&self) -> bool
        ensures { result ≡ begins_with_typedef self.now.scope (rest self.now) }
    {
        match self.rest() {
            [] => false,
            [first, ..] => first.is_typedef(&self.scope),
        }
    }

    /// How many `*` stand there, for an event.
    pub fn stars(&self) -> Result<u32, NoMemory>
        ensures count { IfOk result (λ stars. stars ≡ star_count (rest self.now)) }
        ensures inside { IfOk result (λ stars. stars ≤ length (rest self.now)) }
    {
        number(stars_length(self.rest()))
    }
}

/// The tokens of a row behind the first `count` of them; none where it has no more than these.
#[tactic(auto, using(crate::proofs::Rests::beyond))]
pub fn behind<'a>(row: &'a [Terminal<'a>], count: usize) -> &'a [Terminal<'a>]
    ensures { result.now ≡ drop count row.now }
{
    if count < row.len() {
        &row[count..]
    } else {
        &[]
    }
}
