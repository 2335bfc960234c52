ghost use Rattle.std.specs.Prelude.{◌≡◌, ◌∷◌, List as Items, IfNone, IfSome, None, OnOk, Some};
ghost use Rattle.c_machine.specs.declared.task.Task.{Task};
ghost use Rattle.c_machine.specs.Statements.{behind_for, body_left, loop_left};
ghost use Rattle.c_steps.specs.Ends.{behind};

use crate::stack::Stack;
use c_machine::{Kind, Task};
use cbase::{NoMemory, Place};

/// What stands behind the body of a loop that is left.
#[derive(Drop)]
pub struct LoopEnd<S> {
    /// How many blocks are left up to there.
    pub blocks: usize,
    /// The loop.
    pub stmt: S,
    /// How many operands the unfinished expressions around it hold.
    pub held: usize,
}

/// What stands behind the body of a function that is left.
#[derive(Drop)]
pub struct BodyEnd {
    /// The kind of the result.
    pub result: Kind,
    /// How many operands the unfinished expressions around the call hold.
    pub held: usize,
}

/// What a thing to do is on the way out of a loop's body.
#[derive(Drop)]
enum Passed<S> {
    /// What the loop does behind its body.
    Loop {
        /// The loop.
        stmt: S,
        /// How many operands the unfinished expressions around it hold.
        held: usize,
    },
    /// The end of a block.
    Block,
    /// Any other.
    Other,
}

/// Whether a thing to do is the end of a loop's body, or of a block.
fn sorted<E: Drop, S: Drop, I: Drop>(task: Task<E, S, I>) -> Passed<S>
    ensures { (rest : Items (Task E S I)) → loop_left (task ∷ rest) ≡ behind result rest (loop_left rest) }
{
    match task {
        Task::Again { stmt, held } => Passed::Loop { stmt, held },
        Task::LeaveBlock(_) => Passed::Block,
        other => {
            drop(other);
            Passed::Other
        }
    }
}

/// What is to be done in the body of the innermost loop goes.
pub(crate) fn to_loop<E: Drop, S: Drop, I: Drop>(
    tasks: &mut Stack<Task<E, S, I>>,
) -> Option<LoopEnd<S>>
    ensures some { IfSome result (λ left. loop_left tasks.old ≡ Some (record { blocks = left.blocks; loop = left.stmt; held = left.held; rest = tasks.new })) }
    ensures none { IfNone result (loop_left tasks.old ≡ None) }
{
    let most = tasks.len();
    let mut blocks = 0;
    while let Some(task) = tasks.pop() {
        match sorted(task) {
            Passed::Loop { stmt, held } => {
                return Some(LoopEnd { blocks, stmt, held });
            }
            Passed::Block => blocks += 1,
            Passed::Other => {}
        }
    }
    None
}

/// The end of a function's body, if a thing to do is one.
fn body_end<E: Drop, S: Drop, I: Drop>(task: Task<E, S, I>) -> Option<BodyEnd>
    ensures end { IfSome result (λ left. (rest : Items (Task E S I)) →
        body_left (task ∷ rest) ≡ Some (record { result = left.result; held = left.held; rest = rest })) }
    ensures other { IfNone result ((rest : Items (Task E S I)) → body_left (task ∷ rest) ≡ body_left rest) }
{
    match task {
        Task::EndOfBody { result, held, .. } => Some(BodyEnd { result, held }),
        other => {
            drop(other);
            None
        }
    }
}

/// What is to be done in the body of the function that runs goes.
pub(crate) fn to_body<E: Drop, S: Drop, I: Drop>(
    tasks: &mut Stack<Task<E, S, I>>,
) -> Option<BodyEnd>
    ensures some { IfSome result (λ left. body_left tasks.old ≡ Some (record { result = left.result; held = left.held; rest = tasks.new })) }
    ensures none { IfNone result (body_left tasks.old ≡ None) }
{
    while let Some(task) = tasks.pop() {
        if let Some(left) = body_end(task) {
            return Some(left);
        }
    }
    None
}

/// A thing to do behind a `for` that is left: the end of its block comes at the word.
fn at_word<E: Drop, S: Drop, I: Drop>(task: Task<E, S, I>, word: Place) -> Task<E, S, I>
    ensures { (rest : Items (Task E S I)) → behind_for word (task ∷ rest) ≡ result ∷ rest }
{
    match task {
        Task::LeaveBlock(_) => Task::LeaveBlock(word),
        other => other,
    }
}

/// The block of a `for` that is left ends at the word, where it is to be left next.
pub(crate) fn behind_for<E: Drop, S: Drop, I: Drop>(
    tasks: &mut Stack<Task<E, S, I>>,
    word: Place,
) -> Result<(), NoMemory>
    ensures { OnOk result (tasks.new ≡ behind_for word tasks.old) }
{
    match tasks.pop() {
        None => Ok(()),
        Some(task) => tasks.push(at_word(task, word)),
    }
}
