//! Laws that hold of every row, and of the items of every text.

ghost use Rattle.cread.specs.ItemAnswers.{HasOneAnswer};
ghost use Rattle.cread.specs.InOrder.{HaveOneReading};
ghost use Rattle.cread.specs.Numbered.{ItemsAreNumbered, ReadItemsAreNumbered};
ghost use Rattle.cread.specs.OneItem.{IsOneItem};

/// A row of tokens is one item where the same names are in scope: no row is a declaration and a definition, and none has
/// two trees (C11 6.9).
#[tactic(auto, using(crate::proofs::Complete::one_item))]
pub fn each_row_is_one_item()
    ensures { IsOneItem }
{}

/// The expressions of an item are numbered one by one in the order of the text, from the count of those before it up to the count
/// behind it, and so are those of items that are read one behind the other: the numbers of a program are 0, 1, 2 and so on,
/// each once.
#[tactic(auto, using(crate::proofs::Numbered::items_numbered, crate::proofs::Numbered::read_items_numbered))]
pub fn expressions_are_numbered()
    ensures item { ItemsAreNumbered }
    ensures items { ReadItemsAreNumbered }
{}

/// Of an item at most one answer is true: one tree with what stands behind it, or one way in which it is not read.
#[tactic(auto, using(crate::proofs::OneAnswer::one_item_answer))]
pub fn one_item_answer()
    ensures { HasOneAnswer }
{}

/// One list of items, read one behind the other, has at most one program, or else one item that is the first that is not
/// read, in one way (C11 6.9).
#[tactic(auto, using(crate::proofs::InOrder::one_reading))]
pub fn items_have_one_reading()
    ensures { HaveOneReading }
{}
