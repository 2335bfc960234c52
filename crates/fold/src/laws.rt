//! Worked examples of folds. Each is the contract of a function that does nothing.
ghost use Rattle.fold.specs.Worked.{FoldRows};

/// Two regions that are one segment, worked out by hand.
pub fn worked_folds()
    ensures { FoldRows }
{}
