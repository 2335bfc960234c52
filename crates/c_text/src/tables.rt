//! What typing hands on, by what it is asked by.
ghost use Rattle.std.specs.Prelude.{◌≡◌, ℕ, [], OnOk};
ghost use Rattle.c_text.specs.Rows.{row_at, row_in};
ghost use Rattle.c_text.specs.Tables.{AreGathered, AreEmpty};

use crate::expression_row::ExpressionRow;
use crate::functions::gather_functions;
use crate::links::gather_links;
use crate::object_row::ObjectRow;
use crate::objects::gather_objects;
use crate::results::gather_results;
use crate::rows::gather_rows;
use crate::store_row::{StoreKey, StoreRow};
use crate::stores::gather_stores;
use cbase::NoMemory;
use expressions::HandedRow;
use indexmap::IndexMap;
use std::alloc::Global;

/// The rows of expressions by their numbers, and those of names by their tokens.
#[derive(Drop)]
pub(crate) struct Tables {
    /// The row of each expression.
    pub rows: Vec<Option<ExpressionRow>>,
    /// The token of the name that declared first what another one declares, where that has linkage.
    pub links: IndexMap<u32, u32>,
    /// The row of the object that a name declares.
    pub objects: IndexMap<u32, ObjectRow>,
    /// The row of what a value of an initialiser sets.
    pub stores: IndexMap<StoreKey, StoreRow>,
    /// How many rows stand in front of the parameters of the function that a name defines.
    pub functions: IndexMap<u32, usize>,
    /// The number of the type of the result of the function that a name defines.
    pub results: IndexMap<u32, u32>,
}

impl Tables {
    /// No rows. It takes no memory.
    pub fn new(alloc: Global) -> Tables
        ensures { AreEmpty result }
    {
        Tables {
            rows: Vec::new(alloc),
            links: IndexMap::new(alloc),
            objects: IndexMap::new(alloc),
            stores: IndexMap::new(alloc),
            functions: IndexMap::new(alloc),
            results: IndexMap::new(alloc),
        }
    }
}

/// Puts what is handed on into tables that are empty.
pub(crate) fn gather(tables: &mut Tables, handed: &[HandedRow]) -> Result<(), NoMemory>
    requires { AreEmpty tables.old }
    ensures { OnOk result (AreGathered handed.now tables.new) }
{
    gather_rows(&mut tables.rows, handed)?;
    gather_links(&mut tables.links, handed)?;
    gather_objects(&mut tables.objects, handed)?;
    gather_stores(&mut tables.stores, handed)?;
    gather_functions(&mut tables.functions, handed)?;
    gather_results(&mut tables.results, handed)
}
