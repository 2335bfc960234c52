ghost use Rattle.cgrammar.specs.Rows.{ReadsTwoSubtractions, ReadsPassedOver, ReadsBlock, ReadsLabel, TwoSubtractions, Levels, Chosen, Assigned, CastOfMinus, BracketsAndMinus, SizeAndMinus, SizeOfItem, CallPlace, Container, Assertion, NearestIf, Labels, Loops, Declarations, Hidden, Rest, Structs};

/// Which expressions short rows of tokens spell (C11 6.5): operators, casts, sizes, calls, and failed assertions.
#[tactic(auto, using(crate::proofs::Worked::two_subtractions, crate::proofs::Worked::levels, crate::proofs::Worked::chosen, crate::proofs::Worked::assigned, crate::proofs::Worked::cast_of_minus, crate::proofs::Worked::brackets_and_minus, crate::proofs::Worked::size_and_minus, crate::proofs::Worked::size_of_item, crate::proofs::Worked::call_place, crate::proofs::Worked::container, crate::proofs::Worked::assertion))]
pub fn rows_of_expressions()
    ensures two_subtractions { TwoSubtractions }
    ensures levels { Levels }
    ensures chosen { Chosen }
    ensures assigned { Assigned }
    ensures cast_of_minus { CastOfMinus }
    ensures brackets_and_minus { BracketsAndMinus }
    ensures size_and_minus { SizeAndMinus }
    ensures size_of_item { SizeOfItem }
    ensures call_place { CallPlace }
    ensures container { Container }
    ensures assertion { Assertion }
{}

/// Which blocks short rows of tokens spell (C11 6.2.1, 6.7, 6.8): statements, declarations, and names that hide typedefs.
#[tactic(auto, using(crate::proofs::Worked::nearest_if, crate::proofs::Worked::labels, crate::proofs::Worked::loops, crate::proofs::Worked::declarations, crate::proofs::Worked::hidden, crate::proofs::Worked::rest, crate::proofs::Worked::structs))]
pub fn rows_of_statements()
    ensures nearest_if { NearestIf }
    ensures labels { Labels }
    ensures loops { Loops }
    ensures declarations { Declarations }
    ensures hidden { Hidden }
    ensures rest { Rest }
    ensures structs { Structs }
{}

/// Which expressions and blocks stand at tokens of short texts.
#[tactic(auto, using(crate::proofs::Worked::reads_two_subtractions, crate::proofs::Worked::reads_passed_over, crate::proofs::Worked::reads_block, crate::proofs::Worked::reads_label))]
pub fn rows_of_texts()
    ensures reads_two_subtractions { ReadsTwoSubtractions }
    ensures reads_passed_over { ReadsPassedOver }
    ensures reads_block { ReadsBlock }
    ensures reads_label { ReadsLabel }
{}
