//! Laws of the relation. Each is the contract of a function that does nothing.
ghost use Rattle.typing.specs.Laws.{HasOneOutcome, ItemsHaveOneOutcome, OneIsNamed, TheLeastIsNamed, EachPathLeads};
ghost use Rattle.typing.specs.Sample.{sample};
ghost use Rattle.typing.specs.SampleFile.{file};

/// An expression and a statement have at most one outcome in an environment: all that is handed on, or what is refused in it first.
///
/// It is stated of the declarations of the examples. The proof is of every language.
#[tactic(auto, using(crate::proofs::OneOutcome::one_outcome))]
pub fn expressions_have_one_outcome()
    ensures { HasOneOutcome sample }
{}

/// An item of a file has at most one outcome where it stands, and so have items one behind the other.
///
/// It is stated of the file scope of the examples. The proof is of every one.
#[tactic(auto, using(crate::proofs::OneItem::one_item))]
pub fn items_have_one_outcome()
    ensures { ItemsHaveOneOutcome sample file }
{}

/// Of all that is broken at an expression one thing is named: constructs before rules, lower numbers first, and the first of equal ones.
pub fn one_thing_is_named()
    ensures { OneIsNamed }
{}

/// Of two things that are found at one place the least is named.
pub fn the_least_is_named()
    ensures { TheLeastIsNamed }
{}

/// The way to a member leads somewhere or stops, whatever it begins with (C11 7.19p3).
pub fn each_path_leads()
    ensures { EachPathLeads }
{}
