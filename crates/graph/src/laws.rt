//! Laws of what graphs stand for. Each is the contract of a function that does nothing.
ghost use Rattle.std.specs.Prelude.{◌≡◌, ℕ, Bool, ◌↔◌, IsTrue};
ghost use Rattle.bytes_core.specs.declared.byte.Byte.{Byte};
ghost use Rattle.bytes_core.specs.declared.word.Word.{Word};
ghost use Rattle.graph.specs.declared.parts.Parts.{Parts};
ghost use Rattle.graph.specs.Alike.{IsSeenAs};
ghost use Rattle.graph.specs.Choices.{IsChoice, IsMadeWith};
ghost use Rattle.graph.specs.DeadBlocks.{AbsentBlocksMayHaveOtherNumbers, AllBlocksMayBeThere, IsWithAllBlocks};
ghost use Rattle.graph.specs.DeadObjects.{AreHeldBlocksThere};
ghost use Rattle.graph.specs.Example.{MeetsPremises};
ghost use Rattle.graph.specs.Laws.{IsRenaming};
ghost use Rattle.graph.specs.Meaning.{StandsFor};
ghost use Rattle.graph.specs.Numbers.{NumbersAreCompleted, NumbersMayBeChosen, SomeNumbersMayBeChosen};
ghost use Rattle.graph.specs.Renaming.{renamed, numbered, object_place, value_place};
ghost use Rattle.graph.specs.State.{State, IsState};
ghost use Rattle.graph.specs.Unheld.{MayGo, WhatNothingHoldsMayGo, WhatStaysIsAGraph, WhatStaysIsWithinLimits, with_only};
ghost use Rattle.graph.specs.WellFormed.{IsWellFormed, HasAscendingKeys, is_within_limits};
ghost use Rattle.graph.specs.Whole.{IsGraph};

/// Other keys, one to one, leave a graph well formed.
pub fn renaming_keeps_well_formedness()
    ensures { (of_objects of_values : ℕ → ℕ) (parts : Parts) →
        IsRenaming of_objects of_values parts →
        IsWellFormed parts →
        IsWellFormed (renamed of_objects of_values parts) }
{}

/// Other keys, one to one, keep what a graph stands for.
pub fn renaming_keeps_meaning()
    ensures { (of_objects of_values : ℕ → ℕ) (parts : Parts) (state : State) →
        IsRenaming of_objects of_values parts →
        IsWellFormed parts →
        (StandsFor (renamed of_objects of_values parts) state ↔ StandsFor parts state) }
{}

/// The keys that a graph gets when it is built come from those of its parts one to one, and in the same order.
pub fn numbering_is_a_renaming()
    ensures { (parts : Parts) →
        HasAscendingKeys parts →
        IsRenaming (object_place parts) (value_place parts) parts
        × (numbered parts ≡ renamed (object_place parts) (value_place parts) parts) }
{}

/// A graph that is built stands for what its parts stand for.
pub fn numbering_keeps_meaning()
    ensures { (parts : Parts) (state : State) →
        HasAscendingKeys parts →
        IsWellFormed parts →
        (StandsFor (numbered parts) state ↔ StandsFor parts state) }
{}

/// Parts of a graph are what they are once more numbered: their keys are their places already.
pub fn a_graph_is_numbered()
    ensures { (parts : Parts) → IsGraph parts → numbered parts ≡ parts }
{}

/// A state that differs only in what a graph does not see is stood for as well.
pub fn what_is_not_seen_may_differ()
    ensures { (there back : ℕ → ℕ) (parts : Parts) (one other : State) →
        IsSeenAs there back one other →
        StandsFor parts one →
        StandsFor parts other }
{}

/// A dead object whose address a register, a port, a live region or a node that has to be there holds, in an edge or a link, has its block: one that is there, dead and of
/// its kind.
pub fn dead_objects_that_are_held_have_their_blocks()
    ensures { AreHeldBlocksThere }
{}

/// Every well-formed graph within the limits stands for some state.
pub fn every_graph_stands_for_some_state()
    ensures { (parts : Parts) →
        HasAscendingKeys parts →
        IsWellFormed parts →
        IsTrue (is_within_limits parts) →
        (state : State) × IsState state × StandsFor parts state }
{}

/// Every graph within the limits stands for a state with words and bytes of choice: the word of each value that may be any
/// word, and each byte that no edge holds, within its class.
pub fn words_and_bytes_may_be_chosen()
    ensures { (parts : Parts) (word : ℕ → Word) (byte : ℕ → ℕ → Byte) →
        HasAscendingKeys parts →
        IsWellFormed parts →
        IsTrue (is_within_limits parts) →
        IsChoice (numbered parts) word byte →
        (state : State) × IsState state × IsMadeWith (numbered parts) word byte state }
{}

/// Numbers that are given for some values of a graph within the limits can be completed: where they fit sizes and differ in unequal pairs, there
/// are numbers for all values that do.
pub fn numbers_can_be_completed()
    ensures { NumbersAreCompleted }
{}

/// What nothing holds may go: values that no edge, link, register or port holds, with their unequal pairs, and dead objects whose address is
/// no value that stays. Both graphs say the same of each state, with the same words and blocks for what stays. A constant in a pair with a value
/// that stays tells something of it, and stays.
pub fn what_nothing_holds_may_go()
    ensures { WhatNothingHoldsMayGo }
{}

/// What stays when that goes is well formed, and its keys ascend.
pub fn what_stays_is_a_graph()
    ensures { WhatStaysIsAGraph }
{}

/// It holds no more than before, whatever goes.
pub fn what_stays_is_within_limits()
    ensures { WhatStaysIsWithinLimits }
{}

/// So the states that are stood for stay the same.
pub fn what_nothing_holds_says_nothing()
    ensures { (values objects : ℕ → Bool) (parts : Parts) (state : State) →
        IsWellFormed parts →
        IsTrue (is_within_limits parts) →
        MayGo values objects parts →
        (StandsFor (with_only values objects parts) state ↔ StandsFor parts state) }
{}

/// Dead blocks that are not there may have other numbers, one to one: any that no block has.
pub fn absent_blocks_may_have_other_numbers()
    ensures { AbsentBlocksMayHaveOtherNumbers }
{}

/// All blocks of dead objects may be made to be there: each state that a graph stands for differs from one that it stands for as well, and in which
/// each block of each object is there, in dead blocks that stand behind all others.
pub fn all_blocks_may_be_there()
    ensures { AllBlocksMayBeThere }
{}

/// So it is with each state that is stood for.
pub fn stood_for_with_all_blocks()
    ensures { (parts : Parts) (state : State) → IsState state → StandsFor parts state → IsWithAllBlocks parts state }
{}

/// Numbers may be chosen too: every graph within the limits stands for a state with any numbers that fit sizes and differ in unequal pairs, in
/// whose memory there is room for one more block of 65,536 bytes.
pub fn numbers_may_be_chosen()
    ensures { NumbersMayBeChosen }
{}

/// So may the numbers of some values alone, constants among them: there are numbers for the others.
pub fn some_numbers_may_be_chosen()
    ensures { SomeNumbersMayBeChosen }
{}

/// A graph of four objects meets the premises of these laws and of those of segments, with a state that it stands for.
pub fn a_graph_meets_the_premises()
    ensures { MeetsPremises }
{}
