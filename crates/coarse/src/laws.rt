//! Laws of graphs in which constants beyond a limit are forgotten. Each is the contract of a function that does nothing.
ghost use Rattle.std.specs.Prelude.{◌≡◌, ℕ, true};
ghost use Rattle.graph.specs.declared.parts.Parts.{Parts};
ghost use Rattle.graph.specs.Meaning.{StandsFor};
ghost use Rattle.graph.specs.State.{State};
ghost use Rattle.graph.specs.Whole.{IsGraph};
ghost use Rattle.tidying.specs.Fits.{FitsAs};
ghost use Rattle.coarse.specs.Coarsened.{coarsened, is_coarse};
ghost use Rattle.coarse.specs.Worked.{BeyondRows, CoarsenedRows};

/// What is left is a graph.
pub fn what_is_left_is_a_graph()
    ensures { (limit : ℕ) (parts : Parts) → IsGraph parts → IsGraph (coarsened limit parts) }
{}

/// It stands for each state for which the graph stood.
pub fn what_is_left_stands_for_no_less()
    ensures { (limit : ℕ) (parts : Parts) (state : State) → IsGraph parts → StandsFor parts state → StandsFor (coarsened limit parts) state }
{}

/// It fits where the graph did: it names the same variables, holds something in the same registers and has as many ports, in the same sizes.
pub fn what_is_left_fits_as_before()
    ensures { (limit : ℕ) (parts : Parts) → FitsAs parts (coarsened limit parts) }
{}

/// No constant beyond the limit is left, but those that are spared.
pub fn what_is_left_is_coarse()
    ensures { (limit : ℕ) (parts : Parts) → is_coarse limit (coarsened limit parts) ≡ true }
{}

/// Nothing of a graph without such constants is forgotten.
pub fn a_coarse_graph_stays()
    ensures { (limit : ℕ) (parts : Parts) → is_coarse limit parts ≡ true → coarsened limit parts ≡ parts }
{}

/// Constants beyond a limit, and such as are not, as they were worked out by hand.
pub fn constants_beyond_are_as_worked_out()
    ensures { BeyondRows }
{}

/// What is left of a graph, as it was worked out by hand.
pub fn what_is_left_is_as_worked_out()
    ensures { CoarsenedRows }
{}
