//! Laws of verdicts. Each is the contract of a function that does nothing.
ghost use Rattle.driver.specs.Few.{AreFewFollowed};

/// Where no more walks lead on from main's entry than the budget allows for, and each post has at most one graph, all is followed: the
/// verdict is safe, or has all warnings.
pub fn few_walks_are_followed_to_their_ends()
    ensures { AreFewFollowed }
{}
