//! The initialisers that are written before main begins (C11 5.1.2p1).
ghost use Rattle.std.specs.Prelude.{◌≡◌, [], ◌∷◌, ◌++◌, IfOk, OnOk};
ghost use Rattle.std.specs.List.{flat_map};
ghost use Rattle.expressions.specs.Numbers.{Numbering};
ghost use Rattle.c_machine.specs.Program.{Program};
ghost use Rattle.c_machine.specs.Statics.{sets_of, static_sets};
ghost use Rattle.c_machine.specs.Trees.{nodes_in};
ghost use Rattle.c_text.specs.Stands.{StandsFor};

use crate::TypedText;
use crate::statics::noted::note_in_items;
use crate::statics::set::StaticSet;
use cbase::{Item, List, NoMemory};
use std::alloc::Global;

/// The initialisers that are written before main begins, in the order of the text, and how many parts the items have: eight steps for each of these are
/// enough to write them.
#[derive(Drop)]
pub struct StaticSets<'a> {
    /// The initialisers.
    pub sets: List<StaticSet<'a>>,
    /// How many expressions, statements, types and initialisers stand in the items.
    pub nodes: u64,
}

/// The initialisers of objects that live as long as the program runs, wherever they stand in the items (C11 6.2.4p3, 6.7.9p4).
///
/// It takes time for the items and a look-up for each initialiser.
pub fn static_sets<'a>(
    alloc: Global,
    text: &TypedText,
    items: &'a [Item],
) -> Result<StaticSets<'a>, NoMemory>
    ensures sets { IfOk result (λ found. (n : Numbering) (p : Program) → StandsFor n text.now p → p.items ≡ items.now → found.sets ≡ static_sets p (flat_map sets_of p.items)) }
    ensures nodes { IfOk result (λ found. found.nodes ≡ nodes_in items.now) }
{
    let mut all = List::new(alloc);
    let nodes = note_in_items(alloc, &mut all, items)?;
    let mut sets = List::new(alloc);
    keep_static(text, &mut sets, all.as_slice())?;
    Ok(StaticSets { sets, nodes })
}

/// Puts those of objects that live as long as the program runs behind others.
fn keep_static<'a>(
    text: &TypedText,
    kept: &mut List<StaticSet<'a>>,
    sets: &[StaticSet<'a>],
) -> Result<(), NoMemory>
    ensures { OnOk result ((n : Numbering) (p : Program) → StandsFor n text.now p → kept.new ≡ kept.old ++ static_sets p sets.now) }
{
    for set in sets {
        keep_if_static(text, kept, set)?;
    }
    Ok(())
}

/// Puts an initialiser behind others, where it is that of an object that lives as long as the program runs.
fn keep_if_static<'a>(
    text: &TypedText,
    kept: &mut List<StaticSet<'a>>,
    set: &StaticSet<'a>,
) -> Result<(), NoMemory>
    ensures { OnOk result ((n : Numbering) (p : Program) → StandsFor n text.now p → kept.new ≡ kept.old ++ static_sets p (set.now ∷ [])) }
{
    let place = set.place();
    if text.is_static(place.at) {
        kept.push(StaticSet::of(place, set.init()))
    } else {
        Ok(())
    }
}
