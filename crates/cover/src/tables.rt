//! Tables in which nothing stands yet.
ghost use Rattle.std.specs.Prelude.{◌≡◌, None, IfOk, replicate};

use crate::content::Content;
use cbase::NoMemory;
use std::alloc::Global;

/// A table by the keys of objects.
pub(crate) fn no_partners(alloc: Global, count: u32) -> Result<Vec<Option<u32>>, NoMemory>
    ensures { IfOk result (λ table. table.items ≡ replicate count None) }
{
    let mut table = Vec::new(alloc);
    let mut at = 0;
    while at < count {
        table.push(None)?;
        at += 1;
    }
    Ok(table)
}

/// A table by the keys of values.
pub(crate) fn no_contents(alloc: Global, count: u32) -> Result<Vec<Option<Content>>, NoMemory>
    ensures { IfOk result (λ table. table.items ≡ replicate count None) }
{
    let mut table = Vec::new(alloc);
    let mut at = 0;
    while at < count {
        table.push(None)?;
        at += 1;
    }
    Ok(table)
}
