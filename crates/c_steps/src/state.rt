ghost use Rattle.std.specs.Prelude.{◌≡◌, ◌+◌, ◌≤◌, ◌<◌, ℕ, [], ◌∷◌, All, IfNone, IfOk, IfSome, IsTrue, MatchBool, OnErr, OnOk, Some, length, nat_eq, slice_get, None};
ghost use Rattle.std.specs.Bool.{OnFalse};
ghost use Rattle.bytes_core.specs.Access.{access_fault, range_fault, stored, filled};
ghost use Rattle.bytes_core.specs.Answer.{answer};
ghost use Rattle.bytes_core.specs.Copying.{copy_fault, copied};
ghost use Rattle.bytes_core.specs.Loss.{is_lost};
ghost use Rattle.bytes_core.specs.Placement.{can_be_placed, placed};
ghost use Rattle.bytes_core.specs.Release.{free_fault, freed};
ghost use Rattle.bytes_core.specs.Valid.{NamesBelow, WordNamesBelow};
ghost use Rattle.c_machine.specs.Choosing.{with_object, with_static};
ghost use Rattle.c_machine.specs.State.{block_of, doing, roots, with_memory, with_operand};
ghost use Rattle.c_machine.specs.Statements.{behind_for, body_left, loop_left, oldest};
ghost use Rattle.c_steps.specs.Leaving.{in_new_block, in_call, block_left, function_left, resumed};

use crate::ends::{BodyEnd, LoopEnd, behind_for, to_body, to_loop};
use crate::frames::{Frame, block_in_frame, declare, end_frame, end_scope};
use crate::roots::add_roots;
use crate::stack::Stack;
use crate::statics::Statics;
use bytes_core::{Block, Memory, Word};
use c_machine::{Task, Variable};
use cbase::{List, NoMemory, Place};
use std::alloc::Global;
use std::marker::Model;
use std::mem::replace;

/// What stands between two steps of a run: what is to be done, the operands that unfinished expressions hold, the objects of the function that runs and
/// of its callers, those that live as long as the program runs, and the memory (C11 5.1.2.3).
///
/// `E`, `S` and `I` stand for the expressions, statements and initialisers of the program. Each block that a state names is one of its memory. Where a
/// call answers that memory is wanting, the state that it leaves is of no use unless the call says more.
#[derive(Drop)]
pub struct State<E, S, I> {
    tasks: Stack<Task<E, S, I>>,
    operands: Stack<Word>,
    frame: Frame,
    callers: Stack<Frame>,
    statics: Statics,
    memory: Memory,
}

impl<E, S, I> Model for State<E, S, I> {
    ghost use Rattle.std.specs.Prelude.{length};
    ghost use Rattle.c_machine.specs.State.{State};
    ghost use Rattle.c_steps.specs.Named.{NamesBlocks};

    ghost Value = { State E S I };

    ghost view = { λ s. record { tasks = s.tasks; operands = s.operands; frame = s.frame; callers = s.callers; statics = s.statics; memory = s.memory } };

    ghost invariant = { λ s. NamesBlocks (length s.memory) s.operands s.frame s.callers s.statics };
}

impl<E: Drop, S: Drop, I: Drop> State<E, S, I> {
    /// The state in which nothing is made and nothing is to be done. It takes no memory.
    pub fn blank(alloc: Global) -> State<E, S, I>
        ensures { result ≡ record { tasks = []; operands = []; frame = []; callers = []; statics = []; memory = [] } }
    {
        State {
            tasks: Stack::new(alloc),
            operands: Stack::new(alloc),
            frame: Stack::new(alloc),
            callers: Stack::new(alloc),
            statics: Statics::new(alloc),
            memory: Memory::empty(alloc),
        }
    }

    /// Takes the first thing off those that are to be done.
    pub fn next_task(&mut self) -> Option<Task<E, S, I>>
        ensures some { IfSome result (λ task. self.old ≡ doing (task ∷ []) self.new) }
        ensures none { IfNone result (self.old.tasks ≡ []) }
    {
        self.tasks.pop()
    }

    /// Whether nothing is left to do.
    pub fn is_done(&self) -> bool
        ensures { result ≡ nat_eq (length self.now.tasks) 0 }
    {
        self.tasks.len() == 0
    }

    /// One more thing to do, before all others. Where memory is wanting all stays as it was.
    pub fn do_first(&mut self, task: Task<E, S, I>) -> Result<(), NoMemory>
        ensures ok { OnOk result (self.new ≡ doing (task ∷ []) self.old) }
        ensures err { OnErr result (self.new ≡ self.old) }
    {
        self.tasks.push(task)
    }

    /// What is to be done in the body of the innermost loop goes: it says what stands behind that, if there is a loop.
    pub fn leave_to_loop(&mut self) -> Option<LoopEnd<S>>
        ensures some { IfSome result (λ left.
            loop_left self.old.tasks ≡ Some (record { blocks = left.blocks; loop = left.stmt; held = left.held; rest = self.new.tasks })) }
        ensures rest { self.new ≡ record self.old { tasks = self.new.tasks } }
        ensures none { IfNone result (loop_left self.old.tasks ≡ None) }
    {
        to_loop(&mut self.tasks)
    }

    /// What is to be done in the body of the function that runs goes: it says what stands behind that, if a function runs.
    pub fn leave_to_body(&mut self) -> Option<BodyEnd>
        ensures some { IfSome result (λ left.
            body_left self.old.tasks ≡ Some (record { result = left.result; held = left.held; rest = self.new.tasks })) }
        ensures rest { self.new ≡ record self.old { tasks = self.new.tasks } }
        ensures none { IfNone result (body_left self.old.tasks ≡ None) }
    {
        to_body(&mut self.tasks)
    }

    /// Where a block is to be left next, it is left at that word: it is the block of a `for` that ends (C11 6.8.5p5, 6.8.6.3).
    pub fn leave_for_at(&mut self, word: Place) -> Result<(), NoMemory>
        ensures { OnOk result (self.new ≡ record self.old { tasks = behind_for word self.old.tasks }) }
    {
        behind_for(&mut self.tasks, word)
    }

    /// How many operands unfinished expressions hold.
    pub fn held(&self) -> usize
        ensures { result ≡ length self.now.operands }
    {
        self.operands.len()
    }

    /// One more operand, which names a block of the memory if it is a pointer. Where memory is wanting all stays as it was.
    #[tactic(auto, using(crate::proofs::Kept::one_more_operand))]
    pub fn push(&mut self, operand: Word) -> Result<(), NoMemory>
        requires { WordNamesBelow (length self.old.memory) operand }
        ensures ok { OnOk result (self.new ≡ with_operand operand self.old) }
        ensures err { OnErr result (self.new ≡ self.old) }
    {
        self.operands.push(operand)
    }

    /// Takes the operand that was computed last.
    #[tactic(auto, using(crate::proofs::Kept::one_operand_less, crate::proofs::Kept::first_operand))]
    pub fn pop(&mut self) -> Option<Word>
        ensures some { IfSome result (λ operand. self.old ≡ with_operand operand self.new) }
        ensures names { IfSome result (λ operand. WordNamesBelow (length self.new.memory) operand) }
        ensures none { IfNone result (self.old.operands ≡ []) }
    {
        self.operands.pop()
    }

    /// Lets go of all operands but so many that were computed first.
    #[tactic(auto, using(crate::proofs::Kept::oldest_operands))]
    pub fn keep_oldest(&mut self, held: usize)
        ensures { self.new ≡ record self.old { operands = oldest held self.old.operands } }
    {
        self.operands.keep(held);
    }

    /// The memory.
    pub fn memory(&self) -> &Memory
        ensures { result.now ≡ self.now.memory }
    {
        &self.memory
    }

    /// Stores the lowest bytes of a word where `at` leads (C11 6.5.16.1), with the faults of an access: 1 to 4. It takes no memory.
    pub fn store(&mut self, at: Word, size: u8, word: Word) -> Result<(), u8>
        requires size { size ≤ 8 }
        requires names { WordNamesBelow (length self.old.memory) word }
        ensures answer { result ≡ answer (access_fault self.old.memory at size) tt }
        ensures stored { OnOk result (self.new ≡ with_memory (stored self.old.memory at size word) self.old) }
        ensures err { OnErr result (self.new ≡ self.old) }
    {
        self.memory.store(at, size, word)
    }

    /// Writes a number over `count` bytes where `at` leads (C11 7.24.6.1), with the faults of an access: 1 to 4. It takes no memory.
    pub fn fill(&mut self, at: Word, value: u8, count: usize) -> Result<(), u8>
        ensures answer { result ≡ answer (range_fault self.old.memory at count) tt }
        ensures filled { OnOk result (self.new ≡ with_memory (filled self.old.memory at value count) self.old) }
        ensures err { OnErr result (self.new ≡ self.old) }
    {
        self.memory.fill(at, value, count)
    }

    /// Copies `count` bytes from where one word leads to where another does (C11 7.24.2.1, 7.24.2.2), with faults 1 to 4, and 8 where the ranges have to be
    /// disjoint and are not.
    pub fn copy(
        &mut self,
        alloc: Global,
        to: Word,
        from: Word,
        count: usize,
        disjoint: bool,
    ) -> Result<Result<(), u8>, NoMemory>
        ensures answer { IfOk result (λ copy. copy ≡ answer (copy_fault self.old.memory to from count disjoint) tt) }
        ensures copied { IfOk result (λ copy. OnOk copy (self.new ≡ with_memory (copied self.old.memory to from count) self.old)) }
        ensures fault { IfOk result (λ copy. OnErr copy (self.new ≡ self.old)) }
    {
        self.memory.copy(alloc, to, from, count, disjoint)
    }

    /// Frees what a word leads to (C11 7.22.3.3), with faults 5 and 6. It takes no memory.
    pub fn free(&mut self, at: Word) -> Result<(), u8>
        ensures answer { result ≡ answer (free_fault self.old.memory at) tt }
        ensures freed { OnOk result (self.new ≡ with_memory (freed self.old.memory at) self.old) }
        ensures err { OnErr result (self.new ≡ self.old) }
    {
        self.memory.free(at)
    }

    /// The block of the object that the name behind so many tokens declared first: one of the function that runs, or else one that lives as long as the
    /// program runs.
    pub fn block_of(&self, token: u32) -> Option<u32>
        ensures is { result ≡ block_of self.now token }
        ensures names { IfSome result (λ block. block < length self.now.memory) }
    {
        if let Some(block) = block_in_frame(&self.frame, token) {
            return Some(block);
        }
        self.statics.block_in(token)
    }

    /// Whether memory is lost: no chain of stored pointers leads from an object or an operand to a live heap block.
    ///
    /// It takes time for the bytes of the memory, the objects and the operands.
    pub fn is_lost(&self, alloc: Global) -> Result<bool, NoMemory>
        ensures { IfOk result (λ lost. lost ≡ is_lost self.now.memory (roots self.now)) }
    {
        let mut found = Vec::new(alloc);
        if !self.memory.has_heap() {
            return Ok(false);
        }
        add_roots(
            &mut found,
            &self.frame,
            &self.callers,
            self.statics.as_slice(),
            &self.operands,
        )?;
        self.memory.lost(alloc, found.as_slice())
    }

    /// An object of the innermost block, which has that block of the memory (C11 6.2.4p6).
    #[tactic(auto, using(crate::proofs::Kept::after_frame))]
    pub fn declare(&mut self, alloc: Global, variable: Variable) -> Result<(), NoMemory>
        requires { variable.block < length self.old.memory }
        ensures { OnOk result (self.new ≡ with_object variable.token self.old variable.block) }
    {
        declare(alloc, &mut self.frame, variable)
    }

    /// An object that lives as long as the program runs, which has that block of the memory (C11 6.2.4p3).
    #[tactic(auto, using(crate::proofs::Kept::one_more_static))]
    pub fn declare_static(&mut self, variable: Variable) -> Result<(), NoMemory>
        requires { variable.block < length self.old.memory }
        ensures { OnOk result (self.new ≡ with_static variable.token self.old variable.block) }
    {
        self.statics.push(variable)
    }

    /// A block begins, which has no object yet.
    #[tactic(auto, using(crate::proofs::Kept::after_frame))]
    pub fn open_block(&mut self, alloc: Global) -> Result<(), NoMemory>
        ensures { OnOk result (self.new ≡ in_new_block self.old) }
    {
        self.frame.push(List::new(alloc))
    }

    /// Puts a block behind those of the memory, and gives its number. A memory has at most 2^32 blocks: where no number is left, memory is wanting.
    #[tactic(auto, using(crate::proofs::Kept::one_more_block))]
    pub fn place(&mut self, block: Block) -> Result<u32, NoMemory>
        requires apart { IsTrue (can_be_placed self.old.memory block) }
        requires names { All (NamesBelow (length self.old.memory + 1)) block.bytes }
        ensures number { IfOk result (λ number. number ≡ length self.old.memory) }
        ensures placed { OnOk result (self.new ≡ with_memory (placed self.old.memory block) self.old) }
    {
        let Some(number) = self.memory.place(block)? else {
            return Err(NoMemory);
        };
        Ok(number)
    }

    /// The innermost block of the function that runs is left, and its objects die (C11 6.2.4p6): it says whether there is a block.
    #[tactic(auto, using(crate::proofs::Kept::after_block))]
    pub fn leave_block(&mut self) -> bool
        ensures { MatchBool result (block_left self.old.frame self.old ≡ Some self.new) (self.old.frame ≡ []) }
    {
        match self.frame.pop() {
            None => false,
            Some(scope) => {
                end_scope(&mut self.memory, scope.as_slice());
                true
            }
        }
    }

    /// All blocks of the function that runs are left, and its objects die together (C11 6.8.6.4).
    #[tactic(auto, using(crate::proofs::Kept::after_function))]
    pub fn leave_function(&mut self)
        ensures { self.new ≡ function_left self.old }
    {
        end_frame(&mut self.memory, &mut self.frame);
    }

    /// A function is called: the objects of the one that calls stay, and it has none yet (C11 6.2.4p6). So many operands that were computed last, its
    /// arguments, are turned round, so that the first of them is taken first. Where memory is wanting all stays as it was.
    #[tactic(auto, using(crate::proofs::Kept::after_call))]
    pub fn call(&mut self, alloc: Global, arguments: usize) -> Result<(), NoMemory>
        ensures ok { OnOk result (self.new ≡ in_call arguments self.old) }
        ensures err { OnErr result (self.new ≡ self.old) }
    {
        let caller = replace(&mut self.frame, Stack::new(alloc));
        match self.callers.push_or_return(caller) {
            Err(caller) => {
                self.frame = caller;
                Err(NoMemory)
            }
            Ok(()) => {
                self.operands.turn(arguments);
                Ok(())
            }
        }
    }

    /// The latest caller goes on: it says whether there is one.
    #[tactic(auto, using(crate::proofs::Kept::after_return))]
    pub fn resume(&mut self) -> bool
        ensures resumed { MatchBool result (resumed self.old.callers self.old ≡ Some self.new) (self.old.callers ≡ []) }
        ensures same { OnFalse result (self.new ≡ self.old) }
    {
        match self.callers.pop() {
            None => false,
            Some(frame) => {
                self.frame = frame;
                true
            }
        }
    }
}
