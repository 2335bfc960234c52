ghost use Rattle.std.specs.Prelude.{◌≡◌, ◌<◌, ◌≤◌, ◌+◌, ◌^◌, ◌++◌, ◌∷◌, ℕ, List, drop, length, map, IfOk};
ghost use Rattle.cbase.specs.declared.abi.Abi.{Abi};
ghost use Rattle.cbase.specs.declared.tree.expr.Expr.{Expr as ExprTree};
ghost use Rattle.cbase.specs.declared.tree.expr.ExprForm.TheOpen.{Part::Member as NamedStep, At as IndexedStep};
ghost use Rattle.cbase.specs.declared.tree.expr.ExprForm.TheViews.{out-Part};
ghost use Rattle.typing.specs.declared.ctypes.found.Broken.TheVariants.{Construct};
ghost use Rattle.typing.specs.Faults.{all_at, fault};
ghost use Rattle.typing.specs.Forms.{Step};
ghost use Rattle.typing.specs.Nodes.{offset_known};
ghost use Rattle.typing.specs.Paths.{Way, Leads, LeadsFrom, first_fault, way_faults, way_offset};
ghost use Rattle.typing.specs.Pieces.{index_in, indices_in};
ghost use Rattle.expressions.specs.Context.{Agrees};
ghost use Rattle.expressions.specs.Numbers.{Numbering};
ghost use Rattle.expressions.specs.Settled.{IsFirstOf, Settled};
ghost use Rattle.expressions.specs.Ways.{way_of, IsStep, LeadsOn};

use crate::context::Context;
use crate::found::Found;
use crate::known::Known;
use crate::named_type::NamedType;
use crate::nodes::finishing::{Node, settle};
use crate::nodes::first::{all_at, first_of};
use cbase::{Identifier, NoMemory, Part, Place};
use typing::Fault;
use typing::ctypes::{Broken, Outcome};

/// What is found at `__builtin_offsetof` (C11 7.19p3), where the indices on the way have these values, as words.
pub(crate) fn offset_node(
    context: &mut Context,
    node: Node,
    named: NamedType,
    path: &[Part],
    indices: &[u64],
) -> Result<Found<Known>, NoMemory>
    requires named { named.ctype < length context.old.types }
    requires indices { length indices.now ≡ length (indices_in path.now) }
    ensures { (abi : Abi) → IfOk result (λ found. (way : Numbering → Way) × ((n : Numbering) → Agrees n context.new → LeadsFrom abi context.old.structs node.place (n.ctype named.ctype) (map out-Part path.now) indices.now (way n)) × Settled (λ n. all_at node.place named.found ++ way_faults (way n)) (λ n. offset_known (way_offset (way n))) node.number context.old context.new found) }
{
    let way = way_to(context, node.place, named.ctype, path, indices);
    let broken = first_of(all_at(node.place, named.found), fault_on(way));
    match context.integer(8, false) {
        Ok(ctype) => {
            let known = Known::valued(Some(offset_of(way)), ctype);
            settle(context, node.number, broken, known)
        }
        Err(error) => Err(error),
    }
}

/// What is broken on a way.
fn fault_on(way: Result<u64, Fault>) -> Option<Fault>
    ensures { IsFirstOf (way_faults (way_of way)) result }
{
    match way {
        Ok(_) => None,
        Err(fault) => Some(fault),
    }
}

/// Where a way leads: 0 where something is broken on it.
fn offset_of(way: Result<u64, Fault>) -> u64
    ensures { result ≡ way_offset (way_of way) }
{
    match way {
        Ok(offset) => offset,
        Err(_) => 0,
    }
}

/// Where a way leads, as a word of 64 bits, or what is broken on it.
fn way_to(
    context: &Context,
    word: Place,
    ctype: u32,
    path: &[Part],
    indices: &[u64],
) -> Result<u64, Fault>
    requires ctype { ctype < length context.now.types }
    requires indices { length indices.now ≡ length (indices_in path.now) }
    ensures { (abi : Abi) (n : Numbering) → Agrees n context.now → LeadsFrom abi context.now.structs word (n.ctype ctype) (map out-Part path.now) indices.now (way_of result) }
{
    match path {
        [] => Ok(0),
        [first, rest @ ..] => match first {
            Part::Member(name) => match first_step(context, word, ctype, name) {
                Ok(reached) => leads(context, word, reached, rest, indices),
                Err(fault) => Err(fault),
            },
            Part::At(_) => {
                let from = Reached {
                    ctype,
                    offset: 0,
                    indices: 0,
                };
                leads(context, word, from, path, indices)
            }
        },
    }
}

/// What a front of a way has reached.
#[derive(Clone, Copy)]
pub(crate) struct Reached {
    /// The number of its type.
    ctype: u32,
    /// How many bytes it lies behind the front of the struct, as a word of 64 bits.
    offset: u64,
    /// How many indices stand on that front.
    indices: usize,
}

/// Where the rest of a way leads.
fn leads(
    context: &Context,
    word: Place,
    from: Reached,
    path: &[Part],
    indices: &[u64],
) -> Result<u64, Fault>
    requires ctype { from.ctype < length context.now.types }
    requires none { from.indices ≡ 0 }
    requires indices { length indices.now ≡ length (indices_in path.now) }
    ensures { (abi : Abi) (n : Numbering) → Agrees n context.now → LeadsOn abi context.now.structs word n (map out-Part path.now) indices.now from (way_of result) }
{
    let mut reached = from;
    for part in path {
        match step(context, word, reached, part, indices) {
            Ok(next) => reached = next,
            Err(fault) => return Err(fault),
        }
    }
    Ok(reached.offset)
}

/// One step, with the next index where it is one to an item.
fn step(
    context: &Context,
    word: Place,
    from: Reached,
    part: &Part,
    indices: &[u64],
) -> Result<Reached, Fault>
    requires ctype { from.ctype < length context.now.types }
    requires indices { from.indices + length (index_in (out-Part part.now)) ≤ length indices.now }
    ensures is { (abi : Abi) (n : Numbering) (path : List Step) → Agrees n context.now → IsStep (λ reached. LeadsOn abi context.now.structs word n path (drop reached.indices indices.now) reached) (LeadsOn abi context.now.structs word n (out-Part part.now ∷ path) (drop from.indices indices.now) from) result }
    ensures below { IfOk result (λ reached. reached.ctype < length context.now.types) }
    ensures indices { IfOk result (λ reached. reached.indices ≡ from.indices + length (index_in (out-Part part.now))) }
{
    match part {
        Part::Member(name) => member_step(context, word, from, name),
        Part::At(_) => item_step(context, word, from, indices[from.indices]),
    }
}

/// The first step, by a name.
fn first_step(
    context: &Context,
    word: Place,
    ctype: u32,
    name: &Identifier,
) -> Result<Reached, Fault>
    requires { ctype < length context.now.types }
    ensures is { (abi : Abi) (n : Numbering) (path : List Step) (indices : List ℕ) → Agrees n context.now → IsStep (LeadsOn abi context.now.structs word n path indices) (LeadsFrom abi context.now.structs word (n.ctype ctype) (NamedStep name.now ∷ path) indices) result }
    ensures below { IfOk result (λ reached. reached.ctype < length context.now.types) }
    ensures indices { IfOk result (λ reached. reached.indices ≡ 0) }
{
    match context.member_outcome(ctype, name.name.as_slice()) {
        Outcome::Typed(member) => match context.member_offset(ctype, name.name.as_slice()) {
            Some(offset) => Ok(Reached {
                ctype: member,
                offset,
                indices: 0,
            }),
            None => Err(too_large(word)),
        },
        Outcome::Broken(broken) => Err(first_fault(word, name.place, broken)),
    }
}

/// What is broken at the first name: of what is no struct, or an incomplete one, at the word.
fn first_fault(word: Place, name: Place, broken: Broken) -> Fault
    ensures { result ≡ first_fault word name broken }
{
    match broken {
        Broken::Construct(_) => Fault {
            place: word,
            broken,
        },
        Broken::Rule(number) => {
            if number == 6 {
                Fault {
                    place: name,
                    broken,
                }
            } else {
                Fault {
                    place: word,
                    broken,
                }
            }
        }
    }
}

/// A step to a member: a name that is none is rule 6 at it.
fn member_step(
    context: &Context,
    word: Place,
    from: Reached,
    name: &Identifier,
) -> Result<Reached, Fault>
    requires { from.ctype < length context.now.types }
    ensures is { (abi : Abi) (n : Numbering) (path : List Step) (indices : List ℕ) → Agrees n context.now → IsStep (LeadsOn abi context.now.structs word n path indices) (LeadsOn abi context.now.structs word n (NamedStep name.now ∷ path) indices from) result }
    ensures below { IfOk result (λ reached. reached.ctype < length context.now.types) }
    ensures indices { IfOk result (λ reached. reached.indices ≡ from.indices) }
{
    match context.member_outcome(from.ctype, name.name.as_slice()) {
        Outcome::Typed(member) => match context.member_offset(from.ctype, name.name.as_slice()) {
            Some(bytes) => Ok(Reached {
                ctype: member,
                offset: from.offset.wrapping_add(bytes),
                indices: from.indices,
            }),
            None => Err(too_large(word)),
        },
        Outcome::Broken(_) => Err(Fault {
            place: name.place,
            broken: Broken::Rule(6),
        }),
    }
}

/// A step to an item of an array: an index on what is no array is rule 4 at the word.
fn item_step(context: &Context, word: Place, from: Reached, index: u64) -> Result<Reached, Fault>
    requires ctype { from.ctype < length context.now.types }
    requires indices { from.indices + 1 < 2 ^ 64 }
    ensures is { (abi : Abi) (n : Numbering) (expr : ExprTree) (path : List Step) (indices : List ℕ) → Agrees n context.now → IsStep (LeadsOn abi context.now.structs word n path indices) (LeadsOn abi context.now.structs word n (IndexedStep expr ∷ path) (index ∷ indices) from) result }
    ensures below { IfOk result (λ reached. reached.ctype < length context.now.types) }
    ensures indices { IfOk result (λ reached. reached.indices ≡ from.indices + 1) }
{
    let Some(item) = context.item(from.ctype) else {
        return Err(Fault {
            place: word,
            broken: Broken::Rule(4),
        });
    };
    match context.item_bytes(from.ctype) {
        Some(bytes) => Ok(Reached {
            ctype: item,
            offset: from.offset.wrapping_add(index.wrapping_mul(bytes)),
            indices: from.indices + 1,
        }),
        None => Err(too_large(word)),
    }
}

/// No object has room for it.
fn too_large(word: Place) -> Fault
    ensures { result ≡ fault word (Construct 19) }
{
    Fault {
        place: word,
        broken: Broken::Construct(19),
    }
}
