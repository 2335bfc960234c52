//! Laws of the machine. Each is the contract of a function that does nothing.
ghost use Rattle.c_machine.specs.Fitting.{DoTextsFit};
ghost use Rattle.c_machine.specs.Keeping.{DoRunsKeep, DoStepsKeep};
ghost use Rattle.c_machine.specs.Lacking.{IsNoOperandLacking};
ghost use Rattle.c_machine.specs.Laws.{DoConversionsAgree, DoesLossStay, DoProgramsLeaveMore, DoRunsLeaveMore, DoStepsLeaveMore, DoStepsTakeOne};
ghost use Rattle.c_machine.specs.Reading.{AreRead};
ghost use Rattle.c_machine.specs.RunStates.{AreFitting, AreRunStates, DoNamesLeadToSizes};
ghost use Rattle.c_machine.specs.Witness.{IsMet};

/// A step takes at most one choice, and waits only where there is none.
#[tactic(auto, using(crate::proofs::OneChoice::steps_take_one))]
pub fn a_step_takes_at_most_one_choice()
    ensures { DoStepsTakeOne }
{}

/// Where a step does not wait, choices behind the others change nothing, and are left: it is determined by the first one.
#[tactic(auto, using(crate::proofs::MoreChoices::steps_leave_more))]
pub fn a_step_is_determined_by_its_choice()
    ensures { DoStepsLeaveMore }
{}

/// Where a run does not wait, choices behind the others change nothing, and are left: from any state, and from the start.
#[tactic(auto, using(crate::proofs::MoreOfRuns::runs_leave_more, crate::proofs::MoreOfRuns::programs_leave_more))]
pub fn a_run_is_determined_by_its_choices()
    ensures runs { DoRunsLeaveMore }
    ensures programs { DoProgramsLeaveMore }
{}

/// The machine is told of each form of expression, of each form of statement, of initialisers and of each type what stands in the tree.
pub fn trees_are_read_form_by_form()
    ensures { AreRead }
{}

/// Where integers become ones of another type than `_Bool`, it makes no difference that a type is its own.
#[tactic(auto, using(crate::proofs::OwnTypes::conversions_agree))]
pub fn only_bool_tells_its_own_type_from_others()
    ensures { DoConversionsAgree }
{}

/// What is lost before roots go and objects die is lost after it: `break`, `continue` and `return` need no look of their own.
#[tactic(auto, using(crate::proofs::Losses::loss_stays))]
pub fn what_is_lost_stays_lost()
    ensures { DoesLossStay }
{}

/// A step keeps what holds of a state: the memory is one, operands and parts of pointers have offsets of 64 bits with a sign, and objects live.
pub fn a_step_keeps_a_state()
    ensures { DoStepsKeep }
{}

/// Each state of a run has what a step keeps.
pub fn each_state_of_a_run_is_kept()
    ensures { DoRunsKeep }
{}

/// The numbers of a program's text are those that typing hands on: where these fit, so do its constants, sizes and offsets.
pub fn a_text_has_the_numbers_of_its_program()
    ensures { DoTextsFit }
{}

/// Numbers of operands have 64 bits, and objects in scope their sizes, in each state of a run, where the numbers that typing hands on fit.
pub fn numbers_and_sizes_fit()
    ensures { AreFitting }
{}

/// Each state of a run of a program whose calls have as many arguments as parameters has one operand for each value that is awaited.
pub fn each_awaited_value_has_its_operand()
    ensures { AreRunStates }
{}

/// No step of a run lacks an operand: where it is none of a program of C, it lacks an object, a type, a block, a loop or a body.
pub fn no_step_lacks_an_operand()
    ensures { IsNoOperandLacking }
{}

/// A program with a call meets what these laws ask of programs, and a state of its run has what they say.
pub fn a_program_meets_what_is_asked()
    ensures { IsMet }
{}

/// The block that a name leads to has as many bytes as an object of the text with its token.
pub fn a_name_leads_to_a_block_of_its_size()
    ensures { DoNamesLeadToSizes }
{}
