//! Expressions, statements, declarations and items with what is found of them, worked out by hand from the standard. Each table is the
//! contract of a function that does nothing.
ghost use Rattle.typing.specs.Examples.{AreNamed, AreUnary, AreBinary, AreAssigned, AreMembers, AreCalled, AreCallsOfMain, AreSizes, AreTypeNames, AreInner, AreBraces};
ghost use Rattle.typing.specs.ExamplesOfDeclarations.{AreDeclarations};
ghost use Rattle.typing.specs.ExamplesOfInitialisers.{AreInitialisers};
ghost use Rattle.typing.specs.ExamplesOfItems.{AreItems, AreFunctions};
ghost use Rattle.typing.specs.ExamplesOfStatements.{AreStatements};

/// Names and constants (C11 6.5.1).
#[tactic(auto, using(crate::proofs::ExamplesNamed::are_named))]
pub fn rows_of_names()
    ensures { AreNamed }
{}

/// Operators and assignments (C11 6.5.3, 6.5.5 to 6.5.17).
#[tactic(auto, using(crate::proofs::ExamplesUnary::are_unary, crate::proofs::ExamplesBinary::are_binary, crate::proofs::ExamplesAssigned::are_assigned))]
pub fn rows_of_operators()
    ensures unary { AreUnary }
    ensures binary { AreBinary }
    ensures assigned { AreAssigned }
{}

/// Indices, members and calls (C11 6.5.2), and calls of `main` where it may not be called.
#[tactic(auto, using(crate::proofs::ExamplesMembers::are_members, crate::proofs::ExamplesCalled::are_called, crate::proofs::ExamplesCalled::are_calls_of_main))]
pub fn rows_of_postfixes()
    ensures members { AreMembers }
    ensures called { AreCalled }
    ensures of_main { AreCallsOfMain }
{}

/// `sizeof`, casts, `__builtin_offsetof` and the offsetof idiom (C11 6.5.3.4, 6.5.4, 7.19), and type names (6.7.7).
#[tactic(auto, using(crate::proofs::ExamplesSizes::are_sizes, crate::proofs::ExamplesTypeNames::are_type_names))]
pub fn rows_of_types()
    ensures sizes { AreSizes }
    ensures names { AreTypeNames }
{}

/// Statement expressions, which C11 has not.
#[tactic(auto, using(crate::proofs::ExamplesInner::are_inner))]
pub fn rows_of_statement_expressions()
    ensures { AreInner }
{}

/// Braces of structs and of enums (C11 6.7.2.1, 6.7.2.2).
#[tactic(auto, using(crate::proofs::ExamplesBraces::are_braces))]
pub fn rows_of_braces()
    ensures { AreBraces }
{}

/// Statements (C11 6.8).
#[tactic(auto, using(crate::proofs::ExamplesStatements::are_statements))]
pub fn rows_of_statements()
    ensures { AreStatements }
{}

/// Declarations in blocks (C11 6.7).
#[tactic(auto, using(crate::proofs::ExamplesDeclarations::are_declarations))]
pub fn rows_of_declarations()
    ensures { AreDeclarations }
{}

/// Initialisers (C11 6.7.9).
#[tactic(auto, using(crate::proofs::ExamplesInitialisers::are_initialisers))]
pub fn rows_of_initialisers()
    ensures { AreInitialisers }
{}

/// Declarations outside of functions (C11 6.9.2).
#[tactic(auto, using(crate::proofs::ExamplesItems::are_items))]
pub fn rows_of_items()
    ensures { AreItems }
{}

/// Functions with their bodies (C11 6.9.1), and items one behind the other.
#[tactic(auto, using(crate::proofs::ExamplesItems::are_functions))]
pub fn rows_of_functions()
    ensures { AreFunctions }
{}
