//! Laws of alike memories and states. Each is the contract of a function that does nothing.
ghost use Rattle.std.specs.Prelude.{◌≡◌, ℕ, Bool, ◌&&◌, List, length, nat_lt, slice_get, Some, ◌↔◌, IsTrue};
ghost use Rattle.std.specs.List.{All};
ghost use Rattle.bytes_core.specs.declared.block.Block.{Block};
ghost use Rattle.bytes_core.specs.Valid.{IsMemory};
ghost use Rattle.graph.specs.declared.parts.Parts.{Parts};
ghost use Rattle.graph.specs.AlikeLimits.{AreToldApart, MayDiffer};
ghost use Rattle.graph.specs.AlikeMemories.{AreAlike, NamesAmong};
ghost use Rattle.graph.specs.AlikeStates.{AreAlikeStates};
ghost use Rattle.graph.specs.AlikeSteps.{AreAlikeRespected};
ghost use Rattle.graph.specs.Meaning.{StandsFor};
ghost use Rattle.graph.specs.State.{State, IsState};
ghost use Rattle.graph.specs.WellFormed.{IsWellFormed};

/// A memory is alike itself.
#[tactic(auto, using(crate::proofs::AlikeStates::memory_alike_itself))]
pub fn a_memory_is_alike_itself()
    ensures { (memory : List Block) → IsMemory memory →
        AreAlike (λ number. number) (λ number. number) (λ number. nat_lt number (length memory)) memory memory }
{}

/// Alike memories are so the other way round.
#[tactic(auto, using(crate::proofs::AlikeTurned::turned))]
pub fn alike_memories_are_alike_the_other_way_round()
    ensures { (there back : ℕ → ℕ) (paired : ℕ → Bool) (one other : List Block) →
        AreAlike there back paired one other →
        AreAlike back there (λ number. paired (back number)) other one }
{}

/// What is alike an alike memory is alike.
#[tactic(auto, using(crate::proofs::AlikeTurned::alike_behind))]
pub fn what_is_alike_an_alike_memory_is_alike()
    ensures { (there back there' back' : ℕ → ℕ) (paired paired' : ℕ → Bool) (one other third : List Block) →
        AreAlike there back paired one other →
        AreAlike there' back' paired' other third →
        AreAlike (λ number. there' (there number)) (λ number. back (back' number)) (λ number. paired number && paired' (there number)) one third }
{}

/// Only live blocks and those that something names have to be paired.
#[tactic(auto, using(crate::proofs::AlikeTurned::alike_fewer))]
pub fn fewer_blocks_may_be_paired()
    ensures { (there back : ℕ → ℕ) (paired fewer : ℕ → Bool) (one other : List Block) →
        AreAlike there back paired one other →
        ((number : ℕ) → IsTrue (fewer number) → IsTrue (paired number)) →
        ((number : ℕ) (block : Block) → slice_get one number ≡ Some block → IsTrue block.live → IsTrue (fewer number)) →
        ((number : ℕ) (block : Block) → slice_get one number ≡ Some block → IsTrue block.live → All (NamesAmong fewer) block.bytes) →
        AreAlike there back fewer one other }
{}

/// Alike memories may differ in the bases, sizes and bytes of dead blocks, in dead blocks that nothing names, and in the
/// numbers of blocks.
#[tactic(auto, using(crate::proofs::AlikeLimits::may_differ))]
pub fn alike_memories_may_differ()
    ensures { MayDiffer }
{}

/// Steps and faults respect alike memories: they meet the same faults, read the same but for the addresses of dangling
/// pointers, and leave alike memories.
#[tactic(auto, using(crate::proofs::AlikeSteps::alike_respected))]
pub fn steps_and_faults_respect_alike_memories()
    ensures { AreAlikeRespected }
{}

/// The address of a dangling pointer may differ in alike memories, and so may what is computed of it: an example.
#[tactic(auto, using(crate::proofs::AlikeLimits::told_apart))]
pub fn addresses_of_dangling_pointers_may_differ()
    ensures { AreToldApart }
{}

/// A state is alike itself.
pub fn a_state_is_alike_itself()
    ensures { (state : State) → IsState state →
        AreAlikeStates (λ number. number) (λ number. number) (λ number. nat_lt number (length state.memory)) state state }
{}

/// Alike states are so the other way round.
pub fn alike_states_are_alike_the_other_way_round()
    ensures { (there back : ℕ → ℕ) (paired : ℕ → Bool) (one other : State) →
        AreAlikeStates there back paired one other →
        AreAlikeStates back there (λ number. paired (back number)) other one }
{}

/// What is alike an alike state is alike.
pub fn what_is_alike_an_alike_state_is_alike()
    ensures { (there back there' back' : ℕ → ℕ) (paired paired' : ℕ → Bool) (one other third : State) →
        AreAlikeStates there back paired one other →
        AreAlikeStates there' back' paired' other third →
        AreAlikeStates (λ number. there' (there number)) (λ number. back (back' number)) (λ number. paired number && paired' (there number)) one third }
{}

/// A well-formed graph stands for both of two alike states, or for neither.
pub fn a_graph_does_not_tell_alike_states_apart()
    ensures { (there back : ℕ → ℕ) (paired : ℕ → Bool) (parts : Parts) (one other : State) →
        IsWellFormed parts →
        AreAlikeStates there back paired one other →
        (StandsFor parts one ↔ StandsFor parts other) }
{}
