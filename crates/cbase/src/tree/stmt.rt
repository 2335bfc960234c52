use crate::boxed::Boxed;
use crate::list::List;
use crate::place::Place;
use crate::tree::decl::Decl;
use crate::tree::expr::Expr;

/// A statement of C11 6.8, or a declaration in a block. A label leaves no trace in it.
#[derive(Drop)]
#[cycle(tree)]
pub struct Stmt {
    /// The place of its first token.
    pub place: Place,
    /// The place of its last token.
    pub after: Place,
    /// What it is.
    pub form: StmtForm,
}

/// What a statement is.
#[derive(Drop)]
#[cycle(tree)]
pub enum StmtForm {
    /// A declaration (C11 6.7).
    Declare(Boxed<Decl>),
    /// An expression, or nothing, before a `;` (C11 6.8.3).
    Eval(Option<Expr>),
    /// A block (C11 6.8.2).
    Block(List<Stmt>),
    /// `if` (C11 6.8.4.1).
    If {
        /// The condition.
        test: Boxed<Expr>,
        /// The place of the `)` behind the condition.
        close: Place,
        /// The statement behind it.
        yes: Boxed<Stmt>,
        /// The statement behind `else`, where there is one.
        no: Option<Boxed<Stmt>>,
    },
    /// `while` (C11 6.8.5.1).
    While {
        /// The condition.
        test: Boxed<Expr>,
        /// The place of the `)` behind the condition.
        close: Place,
        /// The loop's body.
        body: Boxed<Stmt>,
    },
    /// `do` (C11 6.8.5.2).
    Do {
        /// The loop's body.
        body: Boxed<Stmt>,
        /// The condition.
        test: Boxed<Expr>,
        /// The place of the `)` behind the condition.
        close: Place,
    },
    /// `for` (C11 6.8.5.3).
    For {
        /// The declaration or the expression that comes first; an `Eval` of nothing where it is left out.
        first: Boxed<Stmt>,
        /// The condition, where there is one.
        test: Option<Boxed<Expr>>,
        /// The place of the `;` behind the condition. That of the `;` before it is the last place of what comes first.
        semicolon: Place,
        /// What is done after each turn, where there is something.
        next: Option<Boxed<Expr>>,
        /// The place of the `)` behind it.
        close: Place,
        /// The loop's body.
        body: Boxed<Stmt>,
    },
    /// `break` (C11 6.8.6.3).
    Break,
    /// `continue` (C11 6.8.6.2).
    Continue,
    /// `return`, with a value or without (C11 6.8.6.4).
    Return(Option<Boxed<Expr>>),
}
