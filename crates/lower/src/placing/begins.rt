//! Which moves have an edge, and where those begin that follow.
ghost use Rattle.c_machine.specs.Program.{Program};
ghost use Rattle.c_machine.specs.Trees.{name_of, text_of};
ghost use Rattle.cbase.specs.declared.tree.decl.Declared.{Declared};
ghost use Rattle.cbase.specs.declared.tree.expr.ExprForm.TheViews.{out-InitPart};
ghost use Rattle.cbase.specs.declared.tree.init.InitPart.{InitPart};
ghost use Rattle.lower.specs.Around.{around_of};
ghost use Rattle.lowering.specs.Clauses.{clause_in};
ghost use Rattle.lowering.specs.Placing.{begins, break_way, continue_way, does_nothing, idle_where, is_empty_within, is_none, way_by, way_of};
ghost use Rattle.lowering.specs.Source.{IsSource};
ghost use Rattle.lower.specs.Ways.{begin_in, is_no_object, way_in};
ghost use Rattle.std.specs.List.{list_all};
ghost use Rattle.std.specs.Prelude.{◌≡◌, map};

use crate::around::Surroundings;
use crate::placing::ways::{Way, break_way, continue_way, idle_where};
use c_machine::Object;
use cbase::{Declared, Init, InitPart};
use flow::Standing;
use lowering::clause::{TreeClause, read_clause};
use lowering::line::{TreeLine, TreeMove};
use lowering::moves::Move;
use lowering::source::Source;

/// Which way a move goes where this stands, with so many blocks around and within that loop. It takes time for what stands directly in a statement.
pub(crate) fn way_of<'a>(
    source: &Source,
    around: &Surroundings,
    standing: &Standing,
    through: &TreeMove<'a>,
) -> Way
    ensures { (p : Program) → IsSource source.now p
        → way_in result ≡ way_of (text_of p) (around_of around.now) standing.now through.now }
{
    match through {
        Move::Does(stmt) => way_by(source, around, standing, &read_clause(stmt.get())),
        Move::Initialises { init, .. } => idle_where(is_empty_within(source.levels(), init.get())),
        _ => Way::Goes,
    }
}

/// Which way a statement goes.
fn way_by(source: &Source, around: &Surroundings, standing: &Standing, clause: &TreeClause) -> Way
    ensures { (p : Program) → IsSource source.now p → way_in result ≡ way_by (text_of p) (around_of around.now) standing.now (clause_in clause.now) }
{
    match clause {
        TreeClause::Declare(names) => idle_where(do_nothing(source, names.get().as_slice())),
        TreeClause::Eval(None) => Way::Idle,
        TreeClause::Break => break_way(around, standing),
        TreeClause::Continue => continue_way(around, standing),
        _ => Way::Goes,
    }
}

/// Whether names do nothing where they are declared.
fn do_nothing(source: &Source, names: &[Declared]) -> bool
    ensures { (p : Program) → IsSource source.now p → result ≡ list_all (λ (name : Declared). does_nothing (text_of p) (name_of name)) names.now }
{
    for name in names {
        if !does_nothing(source, name) {
            return false;
        }
    }
    true
}

/// Whether a name does nothing where it is declared: it declares no automatic object, or has no initialiser.
fn does_nothing(source: &Source, name: &Declared) -> bool
    ensures { (p : Program) → IsSource source.now p → result ≡ does_nothing (text_of p) (name_of name.now) }
{
    match &name.init {
        None => true,
        Some(_) => is_no_object(source.text().automatic(name.place.at)),
    }
}

/// Whether it is told that there is no object.
fn is_no_object(found: Option<Option<Object>>) -> bool
    ensures { result ≡ is_no_object found }
{
    match found {
        None => false,
        Some(None) => true,
        Some(Some(_)) => false,
    }
}

/// Whether an initialiser of at most so many levels has no value in it.
fn is_empty_within(levels: u64, init: &Init) -> bool
    ensures { (p : Program) → result ≡ is_empty_within levels (text_of p) init.now }
{
    let Some(fewer) = levels.checked_sub(1) else {
        return false;
    };
    match init {
        Init::Value { .. } => false,
        Init::Braces(parts) => {
            for part in parts.as_slice() {
                if !is_empty_within(fewer, &part.init) {
                    return false;
                }
            }
            true
        }
    }
}

/// Whether none of these parts, of at most so many levels each, has a value in it.
pub(crate) fn are_empty_within(levels: u64, parts: &[InitPart]) -> bool
    ensures { (p : Program) → result ≡ list_all (is_empty_within levels (text_of p)) (map (λ (part : InitPart). (out-InitPart part).init) parts.now) }
{
    for part in parts {
        if !is_empty_within(levels, &part.init) {
            return false;
        }
    }
    true
}

/// Where moves begin that lead to a point: at a point that is there, or at a new one, which is `None`. It takes time for those that have no edge.
pub(crate) fn begins<'a>(
    source: &Source,
    around: &Surroundings,
    standing: &Standing,
    moves: &TreeLine<'a>,
    to: u32,
) -> Option<u32>
    ensures { (p : Program) → IsSource source.now p
        → begin_in result ≡ begins (text_of p) (around_of around.now) standing.now moves.now to }
{
    let mut at = 0;
    while at < moves.len() {
        match way_of(source, around, standing, moves.item(at)) {
            Way::Idle => at += 1,
            Way::Leads(to) => return Some(to),
            Way::Goes => return None,
        }
    }
    Some(to)
}
