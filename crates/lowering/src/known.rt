//! What an expression comes to without a memory (C11 6.6).
ghost use Rattle.std.specs.Prelude.{◌≡◌, [], pos, option_and_then, option_map, IfOk};
ghost use Rattle.bytes_core.specs.declared.word.Word.TheVariants.{Plain};
ghost use Rattle.bytes_core.specs.Value.{moved};
ghost use Rattle.lowering.specs.Known.{answered, applied_to, both, converted_to, operated_on, truth_of};
ghost use Rattle.lowering.specs.Words.{IsWord, IsObjectWord, IsNameWord, Whole, As, OfValue, OfPlace, Loaded, TwoSides, Operated, Tests, tested};
ghost use Rattle.lowering.specs.Reading.{form_in};
ghost use Rattle.c_machine.specs.Text.{Choose, Unary};

use crate::asked::Asked;
use crate::form::{TreeForm, read_form};
use crate::source::{Source, constant_bits, kind, object_token, value_kind};
use crate::static_names::Names;
use crate::words::{answered, applied_to, converted_to, loaded_from, operated_on, truth_of};
use bytes_core::{Memory, Word};
use c_machine::Kind;
use c_steps::words::moved;
use cbase::{BinaryOp, Expr, NoMemory, UnaryOp};

/// The value of an expression as one of a kind, where it is known without a memory: addresses lead to these static objects.
///
/// It takes time for the expressions in it.
pub fn word_as(
    source: &Source,
    statics: &Names,
    expr: &Expr,
    kind: Kind,
) -> Result<Option<Word>, NoMemory>
    ensures { IfOk result (λ word. IsWord source.now statics.now source.now.levels (As expr.now kind) word) }
{
    let nothing = Memory::empty(source.alloc());
    as_kind(source, statics, &nothing, source.levels(), expr, kind)
}

/// The value or the address of an expression.
#[cycle(known)]
fn known(
    source: &Source,
    statics: &Names,
    nothing: &Memory,
    levels: u64,
    asked: Asked,
    expr: &Expr,
) -> Result<Option<Word>, NoMemory>
    requires { nothing.now ≡ [] }
    ensures { IfOk result (λ word. IsWord source.now statics.now levels (Whole asked expr.now) word) }
{
    if levels == 0 {
        return Ok(None);
    }
    let form = read_form(source, expr);
    match asked {
        Asked::Value => value_word(source, statics, nothing, levels - 1, expr, &form),
        Asked::Place => place_word(source, statics, nothing, levels - 1, expr, &form),
    }
}

/// The value of an expression as one of a kind.
#[cycle(known)]
fn as_kind(
    source: &Source,
    statics: &Names,
    nothing: &Memory,
    levels: u64,
    expr: &Expr,
    kind: Kind,
) -> Result<Option<Word>, NoMemory>
    requires { nothing.now ≡ [] }
    ensures { IfOk result (λ word. IsWord source.now statics.now levels (As expr.now kind) word) }
{
    let own = value_kind(source, expr)?;
    match known(source, statics, nothing, levels, Asked::Value, expr) {
        Ok(word) => Ok(converted_word(nothing, own, kind, word)),
        Err(error) => Err(error),
    }
}

/// The value of an expression of a form.
#[cycle(known)]
fn value_word(
    source: &Source,
    statics: &Names,
    nothing: &Memory,
    levels: u64,
    expr: &Expr,
    form: &TreeForm,
) -> Result<Option<Word>, NoMemory>
    requires { nothing.now ≡ [] }
    ensures { IfOk result (λ word. IsWord source.now statics.now levels (OfValue expr.now (form_in form.now)) word) }
{
    match form {
        TreeForm::Name => name_word(source, statics, expr),
        TreeForm::Known(bits) => Ok(plain(*bits)),
        TreeForm::Unary { op, arg } => {
            unary_word(source, statics, nothing, levels, expr, *op, arg.get())
        }
        TreeForm::Binary { op, left, right } => {
            binary_word(
                source,
                statics,
                nothing,
                levels,
                *op,
                left.get(),
                right.get(),
            )
        }
        TreeForm::Choose { test, one, other } => chosen_word(
            source,
            statics,
            nothing,
            levels,
            expr,
            test.get(),
            one.get(),
            other.get(),
        ),
        TreeForm::Cast(arg) => {
            let to = kind(source, expr)?;
            as_kind(source, statics, nothing, levels, arg.get(), to)
        }
        TreeForm::Index { .. } => loaded_word(source, statics, nothing, levels, expr),
        TreeForm::Member { .. } => loaded_word(source, statics, nothing, levels, expr),
        _ => Ok(None),
    }
}

/// What an lvalue holds: an array is its address.
#[cycle(known)]
fn loaded_word(
    source: &Source,
    statics: &Names,
    nothing: &Memory,
    levels: u64,
    expr: &Expr,
) -> Result<Option<Word>, NoMemory>
    requires { nothing.now ≡ [] }
    ensures { IfOk result (λ word. IsWord source.now statics.now levels (Loaded expr.now) word) }
{
    let own = kind(source, expr)?;
    match known(source, statics, nothing, levels, Asked::Place, expr) {
        Ok(at) => Ok(loaded_from(own, at)),
        Err(error) => Err(error),
    }
}

/// The value of a unary operator with its operand.
#[cycle(known)]
fn unary_word(
    source: &Source,
    statics: &Names,
    nothing: &Memory,
    levels: u64,
    expr: &Expr,
    op: UnaryOp,
    arg: &Expr,
) -> Result<Option<Word>, NoMemory>
    requires { nothing.now ≡ [] }
    ensures { IfOk result (λ word. IsWord source.now statics.now levels (OfValue expr.now (Unary op arg.now)) word) }
{
    match op {
        UnaryOp::Address => known(source, statics, nothing, levels, Asked::Place, arg),
        UnaryOp::Follow => loaded_word(source, statics, nothing, levels, expr),
        UnaryOp::Not => match known(source, statics, nothing, levels, Asked::Value, arg) {
            Ok(word) => Ok(answered_word(nothing, false, word)),
            Err(error) => Err(error),
        },
        _ => {
            let own = value_kind(source, arg)?;
            match known(source, statics, nothing, levels, Asked::Value, arg) {
                Ok(word) => Ok(applied_word(nothing, op, own, word)),
                Err(error) => Err(error),
            }
        }
    }
}

/// The value of a binary operator with its operands.
#[cycle(known)]
fn binary_word(
    source: &Source,
    statics: &Names,
    nothing: &Memory,
    levels: u64,
    op: BinaryOp,
    left: &Expr,
    right: &Expr,
) -> Result<Option<Word>, NoMemory>
    requires { nothing.now ≡ [] }
    ensures { IfOk result (λ word. IsWord source.now statics.now levels (TwoSides op left.now right.now) word) }
{
    match op {
        BinaryOp::Both => tested_word(source, statics, nothing, levels, true, left, right),
        BinaryOp::Either => tested_word(source, statics, nothing, levels, false, left, right),
        BinaryOp::Comma => Ok(None),
        _ => operated_word(source, statics, nothing, levels, op, left, right),
    }
}

/// What an operator makes of two values.
#[cycle(known)]
fn operated_word(
    source: &Source,
    statics: &Names,
    nothing: &Memory,
    levels: u64,
    op: BinaryOp,
    left: &Expr,
    right: &Expr,
) -> Result<Option<Word>, NoMemory>
    requires { nothing.now ≡ [] }
    ensures { IfOk result (λ word. IsWord source.now statics.now levels (Operated op left.now right.now) word) }
{
    let left_kind = value_kind(source, left)?;
    let right_kind = value_kind(source, right)?;
    let one = known(source, statics, nothing, levels, Asked::Value, left)?;
    let other = known(source, statics, nothing, levels, Asked::Value, right)?;
    Ok(operated_words(nothing, op, left_kind, right_kind, one, other))
}

/// `&&`, and `||` where `both` is false (C11 6.5.13, 6.5.14).
#[cycle(known)]
fn tested_word(
    source: &Source,
    statics: &Names,
    nothing: &Memory,
    levels: u64,
    both: bool,
    left: &Expr,
    right: &Expr,
) -> Result<Option<Word>, NoMemory>
    requires { nothing.now ≡ [] }
    ensures { IfOk result (λ word. IsWord source.now statics.now levels (Tests both left.now right.now) word) }
{
    let one = known(source, statics, nothing, levels, Asked::Value, left)?;
    let other = known(source, statics, nothing, levels, Asked::Value, right)?;
    Ok(tested(nothing, both, one, other))
}

/// `?:` (C11 6.5.15).
#[cycle(known)]
fn chosen_word(
    source: &Source,
    statics: &Names,
    nothing: &Memory,
    levels: u64,
    expr: &Expr,
    test: &Expr,
    one: &Expr,
    other: &Expr,
) -> Result<Option<Word>, NoMemory>
    requires { nothing.now ≡ [] }
    ensures { IfOk result (λ word. IsWord source.now statics.now levels (OfValue expr.now (Choose test.now one.now other.now)) word) }
{
    let own = value_kind(source, expr)?;
    let holds = known(source, statics, nothing, levels, Asked::Value, test)?;
    match truth_of_word(nothing, holds) {
        None => Ok(None),
        Some(true) => as_kind(source, statics, nothing, levels, one, own),
        Some(false) => as_kind(source, statics, nothing, levels, other, own),
    }
}

/// The address of an expression of a form.
#[cycle(known)]
fn place_word(
    source: &Source,
    statics: &Names,
    nothing: &Memory,
    levels: u64,
    expr: &Expr,
    form: &TreeForm,
) -> Result<Option<Word>, NoMemory>
    requires { nothing.now ≡ [] }
    ensures { IfOk result (λ word. IsWord source.now statics.now levels (OfPlace expr.now (form_in form.now)) word) }
{
    match form {
        TreeForm::Name => Ok(object_word(source, statics, expr)),
        TreeForm::Unary {
            op: UnaryOp::Follow,
            arg,
        } => known(source, statics, nothing, levels, Asked::Value, arg.get()),
        TreeForm::Index { base, index } => operated_word(
            source,
            statics,
            nothing,
            levels,
            BinaryOp::Add,
            base.get(),
            index.get(),
        ),
        TreeForm::Member {
            base,
            offset,
            through,
        } => {
            let asked = if *through { Asked::Value } else { Asked::Place };
            match known(source, statics, nothing, levels, asked, base.get()) {
                Ok(at) => Ok(moved_word(at, *offset)),
                Err(error) => Err(error),
            }
        }
        _ => Ok(None),
    }
}

/// `&&`, and `||` where `both` is false, on what is known of their sides.
fn tested(nothing: &Memory, both: bool, one: Option<Word>, other: Option<Word>) -> Option<Word>
    requires { nothing.now ≡ [] }
    ensures { result ≡ tested both one other }
{
    let told = answered_word(nothing, true, other);
    match truth_of_word(nothing, one) {
        None => None,
        Some(true) => { if both { told } else { Some(Word::Plain(1)) } }
        Some(false) => { if both { Some(Word::Plain(0)) } else { told } }
    }
}

/// A number, if it is known.
fn plain(bits: Option<u64>) -> Option<Word>
    ensures { result ≡ option_map Plain bits }
{
    match bits {
        None => None,
        Some(bits) => Some(Word::Plain(bits)),
    }
}

/// A word of one kind as one of another, if it is known.
fn converted_word(nothing: &Memory, from: Kind, to: Kind, word: Option<Word>) -> Option<Word>
    requires { nothing.now ≡ [] }
    ensures { result ≡ option_and_then (converted_to from to) word }
{
    match word {
        None => None,
        Some(word) => converted_to(nothing, from, to, word),
    }
}

/// Whether a number is not 0, or whether it is, as an `int`, if it is known.
fn answered_word(nothing: &Memory, asked: bool, word: Option<Word>) -> Option<Word>
    requires { nothing.now ≡ [] }
    ensures { result ≡ option_and_then (answered asked) word }
{
    match word {
        None => None,
        Some(word) => answered(nothing, asked, word),
    }
}

/// What a unary operator makes of a word, if it is known.
fn applied_word(nothing: &Memory, op: UnaryOp, kind: Kind, word: Option<Word>) -> Option<Word>
    requires { nothing.now ≡ [] }
    ensures { result ≡ option_and_then (applied_to op kind) word }
{
    match word {
        None => None,
        Some(word) => applied_to(nothing, op, kind, word),
    }
}

/// Whether a number is not 0, if it is known.
fn truth_of_word(nothing: &Memory, word: Option<Word>) -> Option<bool>
    requires { nothing.now ≡ [] }
    ensures { result ≡ option_and_then truth_of word }
{
    match word {
        None => None,
        Some(word) => truth_of(nothing, word),
    }
}

/// What a binary operator makes of two words, if they are known.
fn operated_words(
    nothing: &Memory,
    op: BinaryOp,
    left: Kind,
    right: Kind,
    one: Option<Word>,
    other: Option<Word>,
) -> Option<Word>
    requires { nothing.now ≡ [] }
    ensures { result ≡ both one other (operated_on op left right) }
{
    match (one, other) {
        (Some(one), Some(other)) => operated_on(nothing, op, left, right, one, other),
        _ => None,
    }
}

/// An address that is moved by so many bytes, if it is known.
fn moved_word(at: Option<Word>, bytes: u64) -> Option<Word>
    ensures { result ≡ option_map (λ word. moved word (pos bytes)) at }
{
    match at {
        None => None,
        Some(word) => Some(moved(word, bytes)),
    }
}

/// The address of the static object that an expression names.
fn object_word(source: &Source, statics: &Names, expr: &Expr) -> Option<Word>
    ensures { IsObjectWord source.now.context statics.now expr.now result }
{
    let token = object_token(source, expr)?;
    let variable = statics.variable(token)?;
    Some(Word::To {
        block: variable,
        offset: 0,
    })
}

/// The value of a name: a constant of an enum is known, and an array in a static object is its address.
fn name_word(source: &Source, statics: &Names, expr: &Expr) -> Result<Option<Word>, NoMemory>
    ensures { IfOk result (λ word. IsNameWord source.now.context statics.now expr.now word) }
{
    match constant_bits(source, expr) {
        Some(bits) => Ok(Some(Word::Plain(u64::from(bits)))),
        None => {
            let own = kind(source, expr)?;
            Ok(loaded_from(own, object_word(source, statics, expr)))
        }
    }
}
