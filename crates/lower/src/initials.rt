//! What static objects hold at the start: a scalar for each value of an initialiser, in the order in which the machine stores them (C11 6.7.9p10).
ghost use Rattle.std.specs.Prelude.{◌≡◌, ◌++◌, ◌∷◌, [], map, option_map, None, Some, IfOk, if◌then◌else◌};
ghost use Rattle.cbase.specs.declared.tree.expr.ExprForm.TheViews.{out-InitPart};
ghost use Rattle.cbase.specs.declared.tree.init.InitPart.{InitPart};
ghost use Rattle.c_machine.specs.Program.{Program};
ghost use Rattle.c_machine.specs.Trees.{text_of};
ghost use Rattle.c_machine.specs.Words.{scalar_bytes};
ghost use Rattle.lowering.specs.Initials.{bytes_of, has_offset, initial_word, initials_within, joined_all, scalar_at, scalar_by, set_initial};
ghost use Rattle.lowering.specs.Source.{IsSource};
ghost use Rattle.lower.specs.Sets.{AddsInitials};

use bytes_core::Word;
use c_machine::{Kind, Object};
use c_steps::words::scalar_bytes;
use c_text::statics::StaticSet;
use cbase::{Expr, Init, InitPart, List, NoMemory, Place};
use flow::{Initial, InitialWord};
use lowering::known::word_as;
use lowering::source::Source;
use lowering::static_names::Names;

/// A word as a scalar holds it at the start.
fn initial_word(word: Word) -> InitialWord
    ensures { result ≡ initial_word word }
{
    match word {
        Word::Plain(number) => InitialWord::Number(number),
        Word::To { block, offset } => InitialWord::Address {
            variable: block,
            offset,
        },
    }
}

/// Whether an address leads to an offset of 64 bits with a sign: all words do.
fn has_offset(word: Word) -> bool
    ensures { result ≡ has_offset word }
{
    match word {
        Word::Plain(_) => true,
        Word::To { offset, .. } => offset >= i64::MIN,
    }
}

/// Puts the scalars of initialisers of static objects behind others, and says whether each value is known and lies in its object.
pub(crate) fn push_initials<'a>(
    source: &Source,
    statics: &Names,
    objects: &[Object],
    initials: &mut List<Initial>,
    sets: &[StaticSet<'a>],
) -> Result<bool, NoMemory>
    ensures { IfOk result (λ whole. (p : Program) → IsSource source.now p → (text_of p).statics ≡ objects.now
        → AddsInitials initials.old (joined_all (λ set. initials_within (text_of p).enough (text_of p) statics.now set.place set.init) sets.now) whole initials.new) }
{
    for set in sets {
        if !push_init(
            source,
            statics,
            objects,
            initials,
            source.levels(),
            set.place(),
            set.init(),
        )? {
            return Ok(false);
        }
    }
    Ok(true)
}

/// The same of an initialiser of at most so many levels.
fn push_init(
    source: &Source,
    statics: &Names,
    objects: &[Object],
    initials: &mut List<Initial>,
    levels: u64,
    place: Place,
    init: &Init,
) -> Result<bool, NoMemory>
    ensures { IfOk result (λ whole. (p : Program) → IsSource source.now p → (text_of p).statics ≡ objects.now
        → AddsInitials initials.old (initials_within levels (text_of p) statics.now place init.now) whole initials.new) }
{
    let Some(fewer) = levels.checked_sub(1) else {
        return Ok(false);
    };
    match init {
        Init::Value { value, .. } => push_value(source, statics, objects, initials, place, value),
        Init::Braces(parts) => {
            for part in parts.as_slice() {
                if !push_init(source, statics, objects, initials, fewer, place, &part.init)? {
                    return Ok(false);
                }
            }
            Ok(true)
        }
    }
}

/// The same of a value.
fn push_value(
    source: &Source,
    statics: &Names,
    objects: &[Object],
    initials: &mut List<Initial>,
    place: Place,
    value: &Expr,
) -> Result<bool, NoMemory>
    ensures { IfOk result (λ whole. (p : Program) → IsSource source.now p → (text_of p).statics ≡ objects.now
        → AddsInitials initials.old (set_initial (text_of p) statics.now place value.now ((text_of p).store place value.now)) whole initials.new) }
{
    let text = source.text();
    match text.store(place.at, value.number) {
        None => Err(NoMemory),
        Some(None) => Ok(false),
        Some(Some(store)) => {
            let variable = statics.variable(text.first_token(place.at));
            let word = word_as(source, statics, value, store.kind)?;
            push_scalar(
                objects,
                initials,
                variable,
                store.offset,
                scalar_bytes(store.kind),
                word,
            )
        }
    }
}

/// A scalar behind others, if there is one and it lies in its object.
fn push_scalar(
    objects: &[Object],
    initials: &mut List<Initial>,
    variable: Option<u32>,
    at: u64,
    bytes: Option<u8>,
    word: Option<Word>,
) -> Result<bool, NoMemory>
    ensures { IfOk result (λ whole. (p : Program) → (text_of p).statics ≡ objects.now
        → AddsInitials initials.old (scalar_by (text_of p) variable at bytes word) whole initials.new) }
{
    match (variable, bytes, word) {
        (Some(variable), Some(size), Some(word)) => {
            push_scalar_at(objects, initials, variable, at, size, word)
        }
        _ => Ok(false),
    }
}

/// A scalar behind others, if it lies in its object.
fn push_scalar_at(
    objects: &[Object],
    initials: &mut List<Initial>,
    variable: u32,
    at: u64,
    size: u8,
    word: Word,
) -> Result<bool, NoMemory>
    ensures { IfOk result (λ whole. (p : Program) → (text_of p).statics ≡ objects.now
        → AddsInitials initials.old (scalar_at (text_of p) variable at size word) whole initials.new) }
{
    let bytes = bytes_of(objects, variable);
    let Some(end) = at.checked_add(u64::from(size)) else {
        return Ok(false);
    };
    if end > bytes || !has_offset(word) {
        return Ok(false);
    }
    let Ok(at) = u32::try_from(at) else {
        return Err(NoMemory);
    };
    initials.push(Initial {
        variable,
        at,
        size,
        word: initial_word(word),
    })?;
    Ok(true)
}

/// How many bytes a static object has, and 0 where there is no such object.
fn bytes_of(objects: &[Object], variable: u32) -> u64
    ensures { (p : Program) → (text_of p).statics ≡ objects.now → result ≡ bytes_of (text_of p) variable }
{
    match objects.get(variable as usize) {
        None => 0,
        Some(object) => object.bytes,
    }
}
