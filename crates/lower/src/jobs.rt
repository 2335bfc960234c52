//! What is still to be placed of a graph.
ghost use Rattle.std.specs.Prelude.{◌≡◌, ◌∷◌, IfOk, OnOk};

use c_steps::{Stack, Tree};
use cbase::{Expr, Init, List, NoMemory, Place, Stmt};
use flow::{Instr, Standing, Width};
use lowering::line::TreeMove;
use lowering::moves::Move;
use lowering::names::Named;
use std::alloc::Global;
use std::marker::Model;

/// A loop around: where its next turn begins and where it ends, how many blocks stand there, and the registers around it.
#[derive(Drop)]
pub struct LoopAround {
    /// The point where its next turn begins.
    pub again: u32,
    /// The point where it ends.
    pub behind: u32,
    /// How many blocks stand in its body.
    pub inner: usize,
    /// How many blocks stand around it.
    pub outer: usize,
    /// The registers that stand around it.
    pub registers: List<Width>,
}

impl Model for LoopAround {
    ghost use Rattle.lowering.specs.Placing.{Loop};

    ghost Value = { Loop };

    ghost view = { λ l. record { again = l.again; behind = l.behind; inner = l.inner; outer = l.outer; registers = l.registers } };
}

/// What is still to be placed, where `E`, `S` and `I` stand for expressions, statements and initialisers.
///
/// Trees have at most `levels` levels.
#[derive(Drop)]
pub enum Job<E, S, I> {
    /// Moves one behind the other, between two points, where this stands at the first one.
    Along {
        /// So many levels.
        levels: u64,
        /// The first point.
        from: u32,
        /// What stands there.
        standing: Standing,
        /// The moves, the next one first.
        moves: Stack<Move<E, S, I>>,
        /// The last point.
        to: u32,
    },
    /// The same, where what stands at the first point is looked up once it is their turn.
    Follow {
        /// So many levels.
        levels: u64,
        /// The first point.
        from: u32,
        /// The moves, the next one first.
        moves: Stack<Move<E, S, I>>,
        /// The last point.
        to: u32,
    },
    /// A move between two points.
    Go {
        /// So many levels.
        levels: u64,
        /// The first point.
        from: u32,
        /// The move.
        through: Move<E, S, I>,
        /// The last point.
        to: u32,
    },
    /// An edge between two points.
    Edge {
        /// The first point.
        from: u32,
        /// What is done.
        instr: Instr,
        /// The last point.
        to: u32,
        /// The place of the edge.
        place: Place,
    },
    /// A condition with what follows on each side of it.
    Branch {
        /// So many levels.
        levels: u64,
        /// The point where it begins.
        from: u32,
        /// The condition.
        test: E,
        /// The place where it ends.
        close: Place,
        /// What follows where it holds, the next one first.
        one: Stack<Move<E, S, I>>,
        /// Where that leads.
        one_to: u32,
        /// What follows where it does not.
        other: Stack<Move<E, S, I>>,
        /// Where that leads.
        other_to: u32,
        /// The loop around what follows where it holds.
        turning: Option<LoopAround>,
    },
    /// A full expression whose value is not used.
    Full {
        /// So many levels.
        levels: u64,
        /// The point where it begins.
        from: u32,
        /// The expression.
        expr: E,
        /// The place where it ends.
        end: Place,
        /// Where it leads.
        to: u32,
    },
    /// A block is entered, with these objects.
    Block(List<Named>),
    /// The innermost block is left.
    Unblock,
    /// This loop is around what follows, or none.
    Within(Option<LoopAround>),
}

/// What is to be placed of a program whose trees these are.
pub type TreeJob<'a> = Job<Tree<'a, Expr>, Tree<'a, Stmt>, Tree<'a, Init>>;

/// What is still to be placed, the next one first.
pub type Jobs<'a> = Stack<TreeJob<'a>>;

/// The same loop, if there is one.
pub(crate) fn copied_loop(
    alloc: Global,
    around: &Option<LoopAround>,
) -> Result<Option<LoopAround>, NoMemory>
    ensures { IfOk result (λ copy. copy ≡ around.now) }
{
    match around {
        None => Ok(None),
        Some(one) => match one.registers.as_slice().to_vec(alloc) {
            Ok(registers) => Ok(Some(LoopAround {
                again: one.again,
                behind: one.behind,
                inner: one.inner,
                outer: one.outer,
                registers: List::from_vec(registers),
            })),
            Err(_) => Err(NoMemory),
        },
    }
}

/// A move between two points is to be placed next.
pub(crate) fn go_next<'a>(
    jobs: &mut Jobs<'a>,
    levels: u64,
    from: u32,
    through: TreeMove<'a>,
    to: u32,
) -> Result<(), NoMemory>
    ensures { OnOk result (jobs.new ≡ Job.Go levels from through.entry to ∷ jobs.old) }
{
    jobs.push(Job::Go {
        levels,
        from,
        through,
        to,
    })
}

/// A condition as a move.
pub(crate) fn asks<'a>(expr: &'a Expr, spare: u32, off: u32, on: u32) -> TreeMove<'a>
    ensures { result ≡ Move.Asks expr.now spare off on }
{
    Move::Asks {
        expr: Tree::of(expr),
        spare,
        off,
        on,
    }
}
