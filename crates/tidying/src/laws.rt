//! Laws of what is left where what nothing holds is taken out. Each is the contract of a function that does nothing.
ghost use Rattle.std.specs.Prelude.{◌≡◌, ◌↔◌, ◌*◌, ◌<◌, ℕ, true, false, length};
ghost use Rattle.graph.specs.declared.parts.Parts.{Parts};
ghost use Rattle.graph.specs.Large.{is_large};
ghost use Rattle.graph.specs.Meaning.{StandsFor};
ghost use Rattle.graph.specs.State.{State};
ghost use Rattle.graph.specs.WellFormed.{nodes};
ghost use Rattle.graph.specs.Whole.{IsGraph};
ghost use Rattle.tidying.specs.Fits.{FitsAs};
ghost use Rattle.tidying.specs.Tidied.{tidied};
ghost use Rattle.tidying.specs.Tidy.{IsTidy};

/// It is a graph.
pub fn what_is_left_is_a_graph()
    ensures { (parts : Parts) → IsGraph parts → IsGraph (tidied parts) }
{}

/// It stands for the same states.
pub fn what_is_left_means_the_same()
    ensures { (parts : Parts) (state : State) → IsGraph parts → (StandsFor (tidied parts) state ↔ StandsFor parts state) }
{}

/// It fits where the graph did: it names the same variables, holds something in the same registers and has as many ports, in the same sizes.
pub fn what_is_left_fits_as_before()
    ensures { (parts : Parts) → IsGraph parts → FitsAs parts (tidied parts) }
{}

/// It is large only where the graph was.
pub fn what_is_left_is_no_larger()
    ensures { (parts : Parts) (bound : ℕ) → IsGraph parts → is_large bound (tidied parts) ≡ true → is_large bound parts ≡ true }
{}

/// Each of its dead objects is named.
pub fn what_is_left_is_tidy()
    ensures { (parts : Parts) → IsGraph parts → IsTidy (tidied parts) }
{}

/// A graph with such dead objects alone that is not large has few nodes.
pub fn tidy_graphs_have_few_nodes()
    ensures { (parts : Parts) (bound : ℕ) →
        IsGraph parts →
        IsTidy parts →
        is_large bound parts ≡ false →
        (nodes parts < 2 * bound) × (length parts.unequal < bound) }
{}
