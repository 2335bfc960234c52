//! The laws.
ghost use Rattle.plain_programs.specs.Example.{IsExampleProgramPlain};
ghost use Rattle.plain_programs.specs.Programs.{ArePlainProgramsJudged};

/// A plain program in whose flow graph no more walks lead on from main's entry than states may be kept is judged exactly: it is found safe where it is sound; and where it is not,
/// all was followed, each warning is an error that a run of it meets, and some warning tells of each fault of a run, with its kind and token.
pub fn plain_programs_are_judged_exactly()
    ensures { ArePlainProgramsJudged }
{}

/// `int main(void) { return 5; }` is plain, and six walks lead on from its main's entry.
#[tactic(auto, using(crate::proofs::ExamplePlain::example_plain))]
pub fn an_example_is_a_plain_program()
    ensures { IsExampleProgramPlain }
{}
