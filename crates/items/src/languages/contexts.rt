//! Laws of what contexts declare, and of C. Each is the contract of a call that does nothing.
ghost use Rattle.expressions.specs.Context.{Agrees};
ghost use Rattle.expressions.specs.Numbers.{Numbering};
ghost use Rattle.items.specs.languages.CLaws.{ContextsCarryOver, FindsWhatContextsFind, FindsFromTheFront, BuiltInsStand, BuiltInsAreHere};
ghost use Rattle.items.specs.languages.LeadsBack.{LeadsBack};

use expressions::Context;

/// Each context has a numbering that has a number for every type, those among them that the context has not met.
pub fn leads_back(context: &Context)
    ensures { (n : Numbering) × Agrees n context.now × LeadsBack n }
{
    context.has_a_numbering();
}

/// The language of a context carries over to that of C, where its numbers are read back to every type.
pub fn contexts_carry_over()
    ensures { ContextsCarryOver }
{}

/// What is found in a part of a text, or in an item, by the numbers of a context is found in it in C (C11 6.3, 6.5 to 6.9).
pub fn c_finds_what_contexts_find()
    ensures { FindsWhatContextsFind }
{}

/// What is found of items from the front of a text on, by the numbers of contexts, is found in C from its front on (C11 6.9).
pub fn c_finds_from_the_front()
    ensures { FindsFromTheFront }
{}

/// In front of a text the names of functions that are built in stand for these, where the text has no body for them, and
/// the file scope has these names; no other name stands for anything.
pub fn built_ins_stand_in_front()
    ensures stand { BuiltInsStand }
    ensures here { BuiltInsAreHere }
{}
