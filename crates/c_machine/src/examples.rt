//! Worked programs, one for each of some rules, with choices and what they come to. Each table is the contract of a function that does nothing.
ghost use Rattle.c_machine.specs.Examples.{AreCalls, AreExpressions, AreFound, AreStatements};

/// Expressions, from left to right (C11 6.5).
#[tactic(auto, using(crate::proofs::WorkedOut::are_expressions))]
pub fn expressions_come_out()
    ensures { AreExpressions }
{}

/// Statements and blocks, and where lost memory is looked for (C11 6.2.4, 6.7.9, 6.8).
#[tactic(auto, using(crate::proofs::WorkedOut::are_statements))]
pub fn statements_come_out()
    ensures { AreStatements }
{}

/// Calls of functions that the program defines (C11 6.5.2.2, 6.8.6.4, 6.9.1).
#[tactic(auto, using(crate::proofs::WorkedOut::are_calls))]
pub fn calls_come_out()
    ensures { AreCalls }
{}

/// What is found in a program: the order of its static objects, and which functions are built in.
#[tactic(auto, using(crate::proofs::WorkedOut::are_found))]
pub fn names_are_found()
    ensures { AreFound }
{}
