use crate::built_in::BuiltIn;
use crate::kind::Kind;
use crate::object::Object;
use cbase::{BinaryOp, Place, UnaryOp};

/// What a run has to do, where `E`, `S` and `I` stand for expressions, statements and initialisers.
///
/// A place is that of a fault, if one is met.
#[derive(Drop)]
pub enum Task<E, S, I> {
    /// The value of an expression.
    ValueOf(E),
    /// The address of the lvalue that an expression is (C11 6.3.2.1).
    AddressOf(E),
    /// A number that is known.
    Push(u64),
    /// The address of the object that the name behind so many tokens declared first.
    ObjectAt(u32),
    /// An address is moved by so many bytes.
    Shift(u64),
    /// The value of an lvalue is loaded (C11 6.3.2.1p2).
    Load {
        /// The place of the lvalue.
        place: Place,
        /// Its type.
        kind: Kind,
    },
    /// A value of one kind becomes one of another (C11 6.3).
    Convert {
        /// The kind that it has.
        from: Kind,
        /// The kind that it gets.
        to: Kind,
    },
    /// A unary operator (C11 6.5.3.3).
    Apply {
        /// The operator.
        op: UnaryOp,
        /// The kind of its operand.
        kind: Kind,
    },
    /// A binary operator on two values (C11 6.5.5 to 6.5.12).
    Operate {
        /// The operator.
        op: BinaryOp,
        /// The kind of its left operand.
        left: Kind,
        /// The kind of its right operand.
        right: Kind,
    },
    /// Whether a value is not 0, or, where that is false, whether it is.
    Answer(bool),
    /// `&&` behind its left side (C11 6.5.13).
    AndThen(E),
    /// `||` behind its left side (C11 6.5.14).
    OrElse(E),
    /// `?:` behind its test (C11 6.5.15).
    Pick {
        /// The kind of its value.
        kind: Kind,
        /// The arm behind `?`.
        one: E,
        /// The arm behind `:`.
        other: E,
    },
    /// A value is let go of.
    Drop,
    /// A value is stored at an address (C11 6.5.16.1).
    Store {
        /// The place of the left side.
        place: Place,
        /// Its type.
        kind: Kind,
    },
    /// `+=` and its like (C11 6.5.16.2).
    Update {
        /// The operator.
        op: BinaryOp,
        /// The place of the left side.
        place: Place,
        /// The type of the left side.
        kind: Kind,
        /// The kind of the value on the right.
        right: Kind,
    },
    /// `++` or `--` (C11 6.5.2.4, 6.5.3.1).
    CountBy {
        /// Whether it is `++`.
        up: bool,
        /// Whether it stands behind its operand.
        after: bool,
        /// The place of its operand.
        place: Place,
        /// The type of its operand.
        kind: Kind,
    },
    /// A struct of so many bytes is copied.
    CopyStruct {
        /// Where it is copied.
        place: Place,
        /// How many bytes it has.
        bytes: u64,
    },
    /// A function that is built in, behind its arguments.
    RunBuiltIn {
        /// The function.
        what: BuiltIn,
        /// The place of its name.
        place: Place,
        /// The type of its result.
        result: Kind,
    },
    /// The call of a function that the program defines, by its number, behind its arguments (C11 6.5.2.2).
    CallDefined(u32),
    /// The run ends.
    EndRun,
    /// The end of a full expression, whose value goes (C11 6.8p4).
    Finish(Place),
    /// The end of a full expression, whose value is kept.
    Keep(Place),
    /// A statement.
    Execute(S),
    /// An `if` or a loop behind its condition.
    Branch(S),
    /// The condition of a loop.
    Test(S),
    /// What a loop does behind its body.
    Again {
        /// The loop.
        stmt: S,
        /// How many operands unfinished expressions around it hold.
        held: usize,
    },
    /// A block begins.
    OpenBlock,
    /// An object of the block is made (C11 6.2.4p6).
    MakeObject(Object),
    /// A parameter is made, and gets its argument (C11 6.9.1p9, p10).
    MakeParameter(Object),
    /// An object is made that lives as long as the program runs (C11 6.2.4p3).
    MakeStatic(Object),
    /// The block ends.
    LeaveBlock(Place),
    /// So many bytes at an address become 0.
    Zero {
        /// The place of the object's name.
        place: Place,
        /// How many bytes.
        bytes: u64,
    },
    /// An object is initialised, whose name stands there (C11 6.7.9).
    Initialise {
        /// The place of the name.
        place: Place,
        /// The initialiser.
        init: I,
    },
    /// `break` (C11 6.8.6.3).
    BreakAt(Place),
    /// `continue` (C11 6.8.6.2).
    ContinueAt(Place),
    /// `return` behind its value (C11 6.8.6.4).
    GiveBack {
        /// The place of the word.
        place: Place,
        /// The kind of the value.
        kind: Kind,
    },
    /// The blocks of a function are left.
    LeaveFunction(Place),
    /// The `}` of the body of a function.
    EndOfBody {
        /// Whether the function is main.
        main: bool,
        /// The kind of its result.
        result: Kind,
        /// The place of the `}`.
        close: Place,
        /// How many operands unfinished expressions around the call hold.
        held: usize,
    },
    /// Nothing that a program of C does.
    Unknown,
}
