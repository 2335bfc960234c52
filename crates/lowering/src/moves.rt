use c_machine::{Kind, Object};
use cbase::Place;
use flow::Instr;

/// What a form gives: a way from one point of the graph to another. `E`, `S` and `I` stand for expressions, statements and initialisers.
///
/// Registers, points and sizes are numbers; `into` gets the value, and `spare` is the first of those registers of the full expression that hold what it let go of.
#[derive(Drop)]
pub enum Move<E, S, I> {
    /// An edge.
    Emits {
        /// What it does.
        instr: Instr,
        /// Its place.
        place: Place,
    },
    /// Two edges to one point.
    Pairs {
        /// What the one does.
        one: Instr,
        /// What the other one does.
        other: Instr,
        /// Their place.
        place: Place,
    },
    /// Two edges, to a point each.
    Parts {
        /// What the one does.
        one: Instr,
        /// Where it leads.
        off: u32,
        /// What the other one does.
        other: Instr,
        /// Where that leads.
        on: u32,
        /// Their place.
        place: Place,
    },
    /// The value of an expression.
    Evaluates {
        /// The expression.
        expr: E,
        /// The first register of what is let go of.
        spare: u32,
        /// The register that gets the value.
        into: u32,
    },
    /// The value of an expression as one of a kind (C11 6.3).
    Converts {
        /// The expression.
        expr: E,
        /// The kind.
        kind: Kind,
        /// The first register of what is let go of.
        spare: u32,
        /// The register that gets the value.
        into: u32,
    },
    /// Whether a condition holds, as 1 or 0.
    Answers {
        /// The condition.
        expr: E,
        /// The first register of what is let go of.
        spare: u32,
        /// The register that gets the answer.
        into: u32,
        /// How many bytes the answer has.
        size: u8,
    },
    /// Whether what a register holds is not 0, as a `_Bool` (C11 6.3.1.2).
    Tells {
        /// The register.
        register: u32,
        /// How many bytes it has.
        size: u8,
        /// The register that gets the answer.
        into: u32,
        /// The place of the edges.
        place: Place,
    },
    /// The address of an lvalue (C11 6.3.2.1).
    Locates {
        /// The lvalue.
        expr: E,
        /// The first register of what is let go of.
        spare: u32,
        /// The register that gets the address.
        into: u32,
    },
    /// An expression whose value is not used.
    Works {
        /// The expression.
        expr: E,
        /// The first register of what is let go of.
        spare: u32,
    },
    /// A condition, to one of two points.
    Asks {
        /// The condition.
        expr: E,
        /// The first register of what is let go of.
        spare: u32,
        /// The point where it does not hold.
        off: u32,
        /// The point where it holds.
        on: u32,
    },
    /// A statement (C11 6.8).
    Does(S),
    /// The object of a name becomes 0 in front of braces (C11 6.7.9p19, p21).
    Clears {
        /// The place of the name.
        place: Place,
        /// The object.
        object: Object,
    },
    /// An initialiser of the object of a name (C11 6.7.9).
    Initialises {
        /// The place of the name.
        place: Place,
        /// The initialiser.
        init: I,
    },
    /// The run ends here.
    Stops,
    /// There is no graph.
    Fails,
}
