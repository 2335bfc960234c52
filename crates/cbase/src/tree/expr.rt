use crate::boxed::Boxed;
use crate::list::List;
use crate::place::Place;
use crate::text::Text;
use crate::tree::decl::TypeName;
use crate::tree::identifier::Identifier;
use crate::tree::operators::{BinaryOp, UnaryOp};
use crate::tree::stmt::Stmt;

/// An expression of C11 6.5. Brackets leave no trace in it.
#[derive(Drop)]
#[cycle(tree)]
pub struct Expr {
    /// The number by which the program's list of types names it.
    pub number: u32,
    /// Its place. Of a binary or an assignment operator, a postfix `++` or `--`, `[`, `.`, `->` and `?:` that of the
    /// mark; of a call that of the first word of what is called, or of its first token where that has no word; of an
    /// expression in brackets that of what stands in them; of any other that of its first token.
    pub place: Place,
    /// What it is.
    pub form: ExprForm,
}

/// What an expression is.
#[derive(Drop)]
#[cycle(tree)]
pub enum ExprForm {
    /// A name of an object, a function or an enum constant (C11 6.5.1).
    Name(Text),
    /// An integer constant or a constant in single quotes, as it is spelled (C11 6.4.4).
    Constant(Text),
    /// A unary operator (C11 6.5.3).
    Unary {
        /// The operator.
        op: UnaryOp,
        /// Its operand.
        arg: Boxed<Expr>,
    },
    /// A binary operator or the comma (C11 6.5.5 to 6.5.14, 6.5.17).
    Binary {
        /// The operator.
        op: BinaryOp,
        /// Its left operand.
        left: Boxed<Expr>,
        /// Its right operand.
        right: Boxed<Expr>,
    },
    /// An assignment (C11 6.5.16).
    Assign {
        /// The operation of `+=` and its like; none for `=`.
        op: Option<BinaryOp>,
        /// What is assigned to.
        left: Boxed<Expr>,
        /// The value.
        right: Boxed<Expr>,
    },
    /// `++` or `--` (C11 6.5.2.4, 6.5.3.1).
    Count {
        /// Whether it is `++`.
        up: bool,
        /// Whether it stands behind its operand.
        after: bool,
        /// Its operand.
        arg: Boxed<Expr>,
    },
    /// `?:` (C11 6.5.15).
    Choose {
        /// The condition.
        test: Boxed<Expr>,
        /// The arm behind `?`.
        yes: Boxed<Expr>,
        /// The arm behind `:`.
        no: Boxed<Expr>,
    },
    /// A cast (C11 6.5.4).
    Cast {
        /// The type in brackets.
        to: Boxed<TypeName>,
        /// What is converted.
        arg: Boxed<Expr>,
    },
    /// `sizeof` of an expression (C11 6.5.3.4).
    SizeOf(Boxed<Expr>),
    /// `sizeof` of a type in brackets (C11 6.5.3.4).
    SizeOfType(Boxed<TypeName>),
    /// `__builtin_offsetof`, by which `offsetof` of C11 7.19 is written.
    OffsetOf {
        /// The struct's type.
        to: Boxed<TypeName>,
        /// The way to the member, from the struct inwards.
        path: List<Part>,
    },
    /// An item of an array, `base[index]` (C11 6.5.2.1).
    Index {
        /// What stands before `[`.
        base: Boxed<Expr>,
        /// What stands in the brackets.
        index: Boxed<Expr>,
    },
    /// A member of a struct (C11 6.5.2.3).
    Member {
        /// The struct, or the pointer to it.
        base: Boxed<Expr>,
        /// The member's name with its place.
        name: Boxed<Identifier>,
        /// Whether it is reached by `->`, and not by `.`.
        through: bool,
    },
    /// A call (C11 6.5.2.2).
    Call {
        /// What is called.
        callee: Boxed<Expr>,
        /// The arguments, left to right.
        args: List<Expr>,
    },
    /// A block in brackets, whose value is that of its last statement. C11 has no such expression.
    Inner {
        /// The statements of the block.
        body: List<Stmt>,
        /// The place of the block's `}`.
        close: Place,
    },
    /// `__assert_fail` with its arguments, which are not read.
    AssertFail,
}

/// One step of the way to a member, in `__builtin_offsetof`.
#[derive(Drop)]
#[cycle(tree)]
pub enum Part {
    /// The member of that name, with the name's place.
    Member(Identifier),
    /// The item of an array with that index.
    At(Expr),
}
