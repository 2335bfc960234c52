//! A table of short texts, with the item that each spells, or that it spells none.

ghost use Rattle.cread.specs.ItemRows.{ItemRows};

/// Texts that spell an item of a file, each with its tree, and texts that spell none of at most twelve levels (C11 6.9).
#[tactic(auto, using(crate::proofs::ItemRowsRead::item_rows))]
pub fn table_of_items()
    ensures { ItemRows }
{}
