//! The parts of a tree, in the order of the text.
use cbase::{
    Boxed, Declared, Expr, ExprForm, FieldDecl, Identifier, Init, InitPart, Item, Param, Part,
    Place, Stmt, StmtForm, TypeName, TypeSpec,
};

/// A part of a tree that is still to be gone through, or a place with what stands there.
#[derive(Clone, Copy)]
pub enum Node<'a> {
    Done,
    Found(&'static str, Place),
    Maybe(&'static str, &'a Option<Identifier>),
    Expr(&'a Expr),
    Operand(&'a Boxed<Expr>),
    MaybeExpr(&'a Option<Boxed<Expr>>),
    Exprs(&'a [Expr]),
    Steps(&'a [Part]),
    Type(&'a TypeSpec),
    TypeName(&'a Boxed<TypeName>),
    Fields(&'a [FieldDecl]),
    Name(&'a Declared),
    Names(&'a [Declared]),
    Params(&'a [Param]),
    Init(&'a Init),
    Inits(&'a [InitPart]),
    Stmt(&'a Stmt),
    Body(&'a Boxed<Stmt>),
    MaybeBody(&'a Option<Boxed<Stmt>>),
    Stmts(&'a [Stmt]),
    /// What stands in a `for` behind its first part.
    Rest(&'a StmtForm),
    /// The `)` of a `for`, and its body.
    Loop(Place, &'a Boxed<Stmt>),
}

use Node::{
    Body, Done, Exprs, Fields, Found, Inits, Loop, Maybe, MaybeBody, MaybeExpr, Names, Operand,
    Params, Rest, Steps, Stmts,
};

/// The parts of a part, behind which `Done` stands.
pub type Parts<'a> = [Node<'a>; 4];

/// The parts of an item.
pub fn parts_of_item(item: &Item) -> Parts<'_> {
    match item {
        Item::Empty => [Done; 4],
        Item::Declare(decl) => [
            Node::Type(&decl.spec),
            Names(decl.names.as_slice()),
            Done,
            Done,
        ],
        Item::Function {
            spec,
            head,
            body,
            ..
        } => [
            Node::Type(spec),
            Node::Name(head),
            Stmts(body.as_slice()),
            Done,
        ],
    }
}

/// The parts of a part.
pub fn parts(node: Node<'_>) -> Parts<'_> {
    match node {
        Maybe(what, Some(name)) => [Found(what, name.place), Done, Done, Done],
        Node::Expr(expr) => parts_of_expr(&expr.form),
        Operand(expr) | MaybeExpr(Some(expr)) => parts_of_expr(&expr.get().form),
        Node::Type(spec) => parts_of_type(spec),
        Node::TypeName(to) => parts_of_type(&to.get().spec),
        Node::Name(name) => parts_of_name(name),
        Node::Init(init) => parts_of_init(init),
        Node::Stmt(stmt) => parts_of_stmt(&stmt.form),
        Body(stmt) | MaybeBody(Some(stmt)) => parts_of_stmt(&stmt.get().form),
        Rest(form) => parts_of_for(form),
        Loop(close, body) => [Found(" for", close), Body(body), Done, Done],
        _ => parts_of_list(node),
    }
}

/// The first part of a list, before the others.
fn parts_of_list(node: Node<'_>) -> Parts<'_> {
    match node {
        Exprs([first, others @ ..]) => [Node::Expr(first), Exprs(others), Done, Done],
        Steps([Part::Member(name), others @ ..]) => [
            Found(" step", name.place),
            Steps(others),
            Done,
            Done,
        ],
        Steps([Part::At(index), others @ ..]) => [Node::Expr(index), Steps(others), Done, Done],
        Fields([first, others @ ..]) => [Node::Type(&first.spec), Fields(others), Done, Done],
        Names([first, others @ ..]) => [Node::Name(first), Names(others), Done, Done],
        Params([first, others @ ..]) => [
            Node::Type(&first.spec),
            Maybe(" parameter", &first.name),
            Params(others),
            Done,
        ],
        Inits([first, others @ ..]) => [
            Maybe(" designator", &first.member),
            Node::Init(&first.init),
            Inits(others),
            Done,
        ],
        Stmts([first, others @ ..]) => [Node::Stmt(first), Stmts(others), Done, Done],
        _ => [Done; 4],
    }
}

/// The parts of an initialiser.
fn parts_of_init(init: &Init) -> Parts<'_> {
    match init {
        Init::Value { value, after } => [Node::Expr(value), Found(" value", *after), Done, Done],
        Init::Braces(parts) => [Inits(parts.as_slice()), Done, Done, Done],
    }
}

/// The parts of an expression.
fn parts_of_expr(form: &ExprForm) -> Parts<'_> {
    match form {
        ExprForm::Name(_) | ExprForm::Constant(_) | ExprForm::AssertFail => [Done; 4],
        ExprForm::Unary { arg, .. } | ExprForm::Count { arg, .. } | ExprForm::SizeOf(arg) => [
            Operand(arg),
            Done,
            Done,
            Done,
        ],
        ExprForm::Binary { left, right, .. }
        | ExprForm::Assign { left, right, .. }
        | ExprForm::Index {
            base: left,
            index: right,
        } => [Operand(left), Operand(right), Done, Done],
        ExprForm::Choose { test, yes, no } => [Operand(test), Operand(yes), Operand(no), Done],
        ExprForm::Cast { to, arg } => [Node::TypeName(to), Operand(arg), Done, Done],
        ExprForm::SizeOfType(to) => [Node::TypeName(to), Done, Done, Done],
        ExprForm::OffsetOf { to, path } => [Node::TypeName(to), Steps(path.as_slice()), Done, Done],
        ExprForm::Member { base, name, .. } => [
            Operand(base),
            Found(" member", name.get().place),
            Done,
            Done,
        ],
        ExprForm::Call { callee, args } => [Operand(callee), Exprs(args.as_slice()), Done, Done],
        ExprForm::Inner { body, close } => [
            Stmts(body.as_slice()),
            Found(" block", *close),
            Done,
            Done,
        ],
    }
}

/// The parts of the words of a type.
fn parts_of_type(spec: &TypeSpec) -> Parts<'_> {
    match spec {
        TypeSpec::Basic(_) | TypeSpec::Named(_) => [Done; 4],
        TypeSpec::Struct {
            name,
            fields: Some(fields),
        } => [Maybe(" tag", name), Fields(fields.as_slice()), Done, Done],
        TypeSpec::Struct { name, .. } | TypeSpec::Enum { name, .. } => [
            Maybe(" tag", name),
            Done,
            Done,
            Done,
        ],
        TypeSpec::OfExpr(expr) => [Operand(expr), Done, Done, Done],
        TypeSpec::OfType(name) => [Node::TypeName(name), Done, Done, Done],
    }
}

/// The parts of a declared name.
fn parts_of_name(name: &Declared) -> Parts<'_> {
    match (&name.params, &name.init) {
        (Some(params), _) => [Params(params.as_slice()), Done, Done, Done],
        (None, Some(init)) => [Node::Init(init), Done, Done, Done],
        (None, None) => [Done; 4],
    }
}

/// The parts of a statement.
fn parts_of_stmt(form: &StmtForm) -> Parts<'_> {
    match form {
        StmtForm::Break | StmtForm::Continue | StmtForm::Eval(None) => [Done; 4],
        StmtForm::Declare(decl) => [
            Node::Type(&decl.get().spec),
            Names(decl.get().names.as_slice()),
            Done,
            Done,
        ],
        StmtForm::Eval(Some(expr)) => [Node::Expr(expr), Done, Done, Done],
        StmtForm::Return(expr) => [MaybeExpr(expr), Done, Done, Done],
        StmtForm::Block(body) => [Stmts(body.as_slice()), Done, Done, Done],
        StmtForm::If {
            test,
            close,
            yes,
            no,
        } => [
            Operand(test),
            Found(" if", *close),
            Body(yes),
            MaybeBody(no),
        ],
        StmtForm::While { test, close, body } => [
            Operand(test),
            Found(" while", *close),
            Body(body),
            Done,
        ],
        StmtForm::Do { body, test, close } => [
            Body(body),
            Operand(test),
            Found(" do", *close),
            Done,
        ],
        StmtForm::For { first, .. } => [
            Body(first),
            Found(" first", first.get().after),
            Rest(form),
            Done,
        ],
    }
}

/// The parts of a `for` behind its first.
fn parts_of_for(form: &StmtForm) -> Parts<'_> {
    match form {
        StmtForm::For {
            test,
            semicolon,
            next,
            close,
            body,
            ..
        } => [
            MaybeExpr(test),
            Found(" second", *semicolon),
            MaybeExpr(next),
            Loop(*close, body),
        ],
        _ => [Done; 4],
    }
}
