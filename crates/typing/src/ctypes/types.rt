ghost use Rattle.std.specs.Prelude.{◌≡◌, ◌<◌, ◌↔◌, [], length, nat_lt, IsTrue, IfOk, OnErr};
ghost use Rattle.cbase.specs.declared.ctype.CType.{CType};
ghost use Rattle.typing.specs.ctypes.Table.{type_of, type_at, NamesBelow, Interns};

use crate::ctypes::interning::{intern, same_number, shape_at};
use crate::ctypes::shape::Shape;
use crate::ctypes::structs::Entry;
use cbase::{CType, NoMemory, Row};
use indexmap::IndexSet;
use std::alloc::Global;
use std::marker::Model;

/// Types with a number each, from 0 on, where equal types have one number; and structs with a number each.
///
/// Contracts see it as the list of the types and that of the structs, each at its number. A type keeps its
/// number, and so does a struct. There are at most 2^32 - 1 types: the call that would want one more answers
/// as where memory is wanting.
#[derive(Drop)]
pub struct Types {
    pub(crate) shapes: IndexSet<Shape>,
    /// Each type as a row of equal parts.
    pub(crate) rows: Vec<Row>,
    pub(crate) structs: Vec<Entry>,
}

impl Model for Types {
    ghost use Rattle.typing.specs.ctypes.Structs.{TypeTable, read_off};
    ghost use Rattle.cbase.specs.contracts.ctype.CType as e;
    ghost use Rattle.std.specs.Coded.{codes};
    ghost use Rattle.typing.specs.ctypes.Table.{types_of};
    ghost use Rattle.typing.specs.ctypes.Kept.{AreTables};

    ghost Value = { TypeTable };

    ghost coded = { Prim.hlevel (codes, e.the_row.coded) };

    ghost view = { λ table. record { types = types_of table.shapes.keys; structs = read_off (types_of table.shapes.keys) table.structs.items } };

    ghost invariant = { λ table. AreTables table.shapes.keys table.rows.items table.structs.items };
}

impl Types {
    /// No types and no structs. It takes no memory.
    pub fn new(alloc: Global) -> Types
        ensures { result ≡ record { types = []; structs = [] } }
    {
        Types {
            shapes: IndexSet::new(alloc),
            rows: Vec::new(alloc),
            structs: Vec::new(alloc),
        }
    }

    /// The number of `void`. Where memory is wanting all stays as it was, as for every type here.
    pub fn void(&mut self) -> Result<u32, NoMemory>
        ensures ok { IfOk result (λ number. Interns self.old.types CType.Void self.new.types number) }
        ensures structs { self.new.structs ≡ self.old.structs }
        ensures err { OnErr result (self.new ≡ self.old) }
    {
        self.number_of(Shape::Void)
    }

    /// The number of `_Bool`.
    pub fn boolean(&mut self) -> Result<u32, NoMemory>
        ensures ok { IfOk result (λ number. Interns self.old.types CType.Bool self.new.types number) }
        ensures structs { self.new.structs ≡ self.old.structs }
        ensures err { OnErr result (self.new ≡ self.old) }
    {
        self.number_of(Shape::Bool)
    }

    /// The number of the integer type of so many bytes.
    pub fn integer(&mut self, bytes: u8, signed: bool) -> Result<u32, NoMemory>
        ensures ok { IfOk result (λ number. Interns self.old.types (CType.Int bytes signed) self.new.types number) }
        ensures structs { self.new.structs ≡ self.old.structs }
        ensures err { OnErr result (self.new ≡ self.old) }
    {
        self.number_of(Shape::Int { bytes, signed })
    }

    /// The number of the pointers to the type of number `item` (C11 6.7.6.1).
    pub fn pointer_to(&mut self, item: u32) -> Result<u32, NoMemory>
        requires { item < length self.old.types }
        ensures ok { IfOk result (λ number. Interns self.old.types (CType.Pointer (type_at self.old.types item)) self.new.types number) }
        ensures structs { self.new.structs ≡ self.old.structs }
        ensures err { OnErr result (self.new ≡ self.old) }
    {
        self.number_of(Shape::Pointer(item))
    }

    /// The number of the struct of number `of` in the list of structs.
    pub fn structure(&mut self, of: u32) -> Result<u32, NoMemory>
        ensures ok { IfOk result (λ number. Interns self.old.types (CType.Struct of) self.new.types number) }
        ensures structs { self.new.structs ≡ self.old.structs }
        ensures err { OnErr result (self.new ≡ self.old) }
    {
        self.number_of(Shape::Struct(of))
    }

    /// The number of the arrays of `count` items of the type of number `item` (C11 6.7.6.2).
    pub fn array_of(&mut self, item: u32, count: u64) -> Result<u32, NoMemory>
        requires { item < length self.old.types }
        ensures ok { IfOk result (λ number. Interns self.old.types (CType.Array (type_at self.old.types item) count) self.new.types number) }
        ensures structs { self.new.structs ≡ self.old.structs }
        ensures err { OnErr result (self.new ≡ self.old) }
    {
        self.number_of(Shape::Array(item, count))
    }

    /// The number of the type of a shape, which names types of the table.
    pub(crate) fn number_of(&mut self, shape: Shape) -> Result<u32, NoMemory>
        requires { NamesBelow (length self.old.types) shape }
        ensures ok { IfOk result (λ number. Interns self.old.types (type_of self.old.types shape) self.new.types number) }
        ensures structs { self.new.structs ≡ self.old.structs }
        ensures err { OnErr result (self.new ≡ self.old) }
    {
        intern(&mut self.shapes, &mut self.rows, &self.structs, shape)
    }

    /// The type of a number, taken apart: what it names has lower numbers. It takes no memory and one step.
    pub fn shape(&self, number: u32) -> Shape
        requires { number < length self.now.types }
        ensures is { type_at self.now.types number ≡ type_of self.now.types result }
        ensures below { NamesBelow number result }
    {
        shape_at(&self.shapes, number)
    }

    /// Whether a number is that of a type. It takes one step.
    pub fn has(&self, number: u32) -> bool
        ensures { result ≡ nat_lt number (length self.now.types) }
    {
        (number as usize) < self.shapes.len()
    }

    /// Whether the types of two numbers are the same: so they are exactly where the numbers are.
    pub fn is_same(&self, first: u32, second: u32) -> bool
        requires first { first < length self.now.types }
        requires second { second < length self.now.types }
        ensures { IsTrue result ↔ (type_at self.now.types first ≡ type_at self.now.types second) }
    {
        same_number(&self.shapes, first, second)
    }
}
