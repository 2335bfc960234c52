//! How what `definitions` finds in an item and what `ctokens` says that it offers hang together.
ghost use Rattle.claims.specs.OfItems.{AreOffered, AreNeededBy, DoBodiesAgree};

/// Each name that an item of a text defines it also offers, as a word that it declares at depth 0. So the item is needed where the name is used, but for one without a body that offers only
/// names of functions that are built in, as `int malloc;`. And an item ends with a body for the one exactly where it does for the other.
pub fn definitions_are_offered()
    ensures offered { AreOffered }
    ensures needed { AreNeededBy }
    ensures bodies { DoBodiesAgree }
{}
