ghost use Rattle.std.specs.Prelude.{◌≡◌, IfOk, OnOk};
ghost use Rattle.cgrammar.specs.Readings.{most_levels};
ghost use Rattle.cparser.specs.ItemSteps.{item_alone};
ghost use Rattle.cparser.specs.ReadingSteps.{inner_at, reads};
ghost use Rattle.cparser.specs.StatementSteps.{block};
ghost use Rattle.cparser.specs.Writings.{item_written_of, start_at, start_of, written_of};
ghost use Rattle.cparser.specs.declared.wanted.Wanted.TheVariants.{Expression};

use crate::grammar::Grammar;
use crate::reader::Reader;
use crate::wanted::Wanted;
use crate::written::Written;
use crate::written_item::WrittenItem;
use cbase::NoMemory;
use cgrammar::{Scope, Terminal};
use std::alloc::Global;

/// How many levels a tree may have.
const MOST_LEVELS: u32 = 1024;

/// Reads what is wanted, of at most `most` levels. Where nothing of the kind begins at the reader's place, its status says
/// so. Want of memory is the only error; nothing is said of the reader then.
#[tactic(auto, using(crate::proofs::Readings::reads_nothing, crate::proofs::Readings::reads_more))]
pub fn read(reader: &mut Reader<'_>, most: u32, wanted: Wanted) -> Result<(), NoMemory>
    ensures { OnOk result (reader.new ≡ reads most wanted reader.old) }
{
    if most == 0 {
        reader.lose();
        return Ok(());
    }
    let grammar = Grammar {
        depth: most - 1,
        inner: read,
    };
    grammar.level(reader, wanted)
}

/// Reads an expression, of at most 1,024 levels, that begins at the token of the row with the number `at`, where these names
/// are in scope (C11 6.5.17). Want of memory is the only error.
pub fn read_expression<'a>(
    alloc: Global,
    row: &'a [Terminal<'a>],
    at: usize,
    scope: &Scope,
) -> Result<Written, NoMemory>
    ensures { IfOk result (λ written. written ≡ written_of (reads most_levels Expression (start_at row.now at scope.now))) }
{
    let mut reader = Reader::new(alloc, row, at, scope.copied(alloc)?);
    match read(&mut reader, MOST_LEVELS, Wanted::Expression) {
        Ok(()) => Ok(reader.into_written()),
        Err(error) => {
            drop(reader);
            Err(error)
        }
    }
}

/// Reads a block, of statements of at most 1,024 levels, that begins at the token of the row with the number `at`, where these
/// names are in scope around it (C11 6.8.2). Want of memory is the only error.
pub fn read_statements<'a>(
    alloc: Global,
    row: &'a [Terminal<'a>],
    at: usize,
    scope: &Scope,
) -> Result<Written, NoMemory>
    ensures { IfOk result (λ written. written ≡ written_of (block (inner_at most_levels) (start_at row.now at scope.now))) }
{
    let mut reader = Reader::new(alloc, row, at, scope.copied(alloc)?);
    let grammar = Grammar {
        depth: MOST_LEVELS,
        inner: read,
    };
    match grammar.block(&mut reader) {
        Ok(()) => Ok(reader.into_written()),
        Err(error) => {
            drop(reader);
            Err(error)
        }
    }
}

/// Reads the whole row as an item of a file, of at most 1,024 levels, where these names are in scope before it (C11 6.9). The
/// scope goes on: it is given back as it is behind the item. Want of memory is the only error, and then the scope is lost.
pub fn read_item<'a>(
    alloc: Global,
    row: &'a [Terminal<'a>],
    scope: Scope,
) -> Result<WrittenItem, NoMemory>
    ensures { IfOk result (λ written. written ≡ item_written_of (item_alone (inner_at most_levels) (start_of row.now scope))) }
{
    let mut reader = Reader::new(alloc, row, 0, scope);
    let grammar = Grammar {
        depth: MOST_LEVELS,
        inner: read,
    };
    match grammar.item_alone(&mut reader) {
        Ok(()) => Ok(reader.into_item()),
        Err(error) => {
            drop(reader);
            Err(error)
        }
    }
}
