ghost use Rattle.std.specs.Prelude.{◌≤◌, IfOk, IfSome};
ghost use Rattle.ctokens.specs.InText.{LieInText};
ghost use Rattle.ctokens.specs.TokenList.{AreNumbered};
ghost use Rattle.ctrees.specs.Levels.{expr_levels};

use crate::declared::{Around, declare};
use crate::printing::{push_fault, push_known, push_text};
use crate::reading::cut;
use cbase::{Abi, NoMemory};
use cbuild::let_go_of_expression;
use cread_expr::{ReadExpr, Scope, read_expr};
use ctokens::Tokens;
use expressions::{Context, Found};
use items::expression_found;
use std::alloc::Global;

/// Puts what is printed for a line into an empty text.
pub fn answer_line(alloc: Global, line: &str, answer: &mut String) -> Result<(), NoMemory> {
    if line.starts_with("#") {
        return push_text(line, answer);
    }
    let Some((layout, text)) = line.split_once(' ') else {
        return push_text("no row", answer);
    };
    let (abi, around) = match layout {
        "lp64" => (Abi::Lp64, Around::IntFunction),
        "llp64" => (Abi::Llp64, Around::IntFunction),
        "void" => (Abi::Lp64, Around::VoidFunction),
        "file" => (Abi::Lp64, Around::File),
        _ => return push_text("no layout", answer),
    };
    match cut(alloc, text.as_bytes()) {
        Ok(Some(t)) => answer_tokens(alloc, abi, around, &t, answer),
        Ok(None) => push_text("no tokens", answer),
        Err(error) => Err(error),
    }
}

/// The same for the tokens of an expression.
fn answer_tokens(
    alloc: Global,
    abi: Abi,
    around: Around,
    t: &Tokens,
    answer: &mut String,
) -> Result<(), NoMemory>
    requires text { LieInText t.now }
    requires numbered { AreNumbered t.now.list }
{
    let mut scope = Scope::new(alloc)?;
    let read = read_among_types(alloc, t, &mut scope);
    drop(scope);
    match read {
        Ok(Some(read)) => {
            let mut context = Context::new(alloc);
            let answered = answer_read(&mut context, abi, around, &read, t.list.len(), answer);
            drop(context);
            let_go_of_expression(read.expr);
            answered
        }
        Ok(None) => push_text("no expression", answer),
        Err(error) => Err(error),
    }
}

/// The expression at the first token, where the names of types are put in scope.
fn read_among_types(
    alloc: Global,
    t: &Tokens,
    scope: &mut Scope,
) -> Result<Option<ReadExpr>, NoMemory>
    requires text { LieInText t.now }
    requires numbered { AreNumbered t.now.list }
    ensures { IfOk result (λ found. IfSome found (λ read. expr_levels read.expr ≤ 1024)) }
{
    scope.declare(alloc, b"T", true)?;
    scope.declare(alloc, b"S", true)?;
    read_expr(alloc, t, scope, 0)
}

/// What is printed for an expression that is read from a text of so many tokens, of a context in which nothing is declared yet.
fn answer_read(
    context: &mut Context,
    abi: Abi,
    around: Around,
    read: &ReadExpr,
    count: usize,
    answer: &mut String,
) -> Result<(), NoMemory>
    requires { expr_levels read.now.expr ≤ 1024 }
{
    if read.after as usize != count {
        return push_text("no expression", answer);
    }
    declare(context, abi, around)?;
    match expression_found(context, abi, &read.expr) {
        Ok(Found::Passes(known)) => push_known(context, known, answer),
        Ok(Found::Refused(fault)) => push_fault(fault, answer),
        Err(error) => Err(error),
    }
}
