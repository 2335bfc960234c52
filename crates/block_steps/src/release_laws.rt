//! Laws of releases. Each is the contract of a function that does nothing.
ghost use Rattle.block_steps.specs.ReleaseExamples.{AreReleases};

/// What releases come to in one graph.
#[tactic(auto, using(crate::proofs::ReleaseExamples::are_releases))]
pub fn releases_have_examples()
    ensures { AreReleases }
{}
