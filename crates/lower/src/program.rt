//! The flow graph of a program of C.
ghost use Rattle.std.specs.Prelude.{◌≡◌, ◌+◌, ◌*◌, ◌↔◌, ℕ, List as Items, IfOk, IfSome};
ghost use Rattle.cbase.specs.declared.place.Place.{Place};
ghost use Rattle.choices.specs.declared.choice.Choice.{Choice};
ghost use Rattle.expressions.specs.Numbers.{Numbering};
ghost use Rattle.c_machine.specs.Program.{Program};
ghost use Rattle.c_machine.specs.Run.{Leads};
ghost use Rattle.c_machine.specs.Trees.{text_of};
ghost use Rattle.c_text.specs.Stands.{StandsFor};
ghost use Rattle.flow.specs.Exclusive.{IsExclusive};
ghost use Rattle.flow.specs.Valid.{IsFlow};
ghost use Rattle.simulation.specs.Laws.{GraphLeads};
ghost use Rattle.lowering.specs.Lowering.{flow_of};

use crate::graph::graph_of;
use c_text::TypedText;
use cbase::{Abi, Item, NoMemory};
use flow::{Flow, is_exclusive, is_well_formed};
use std::alloc::Global;

/// The flow graph of the program of these items, if it has one.
///
/// It is the graph of each program that the text stands for (`flow_of`), and meets the same faults, with the same choices. There is none where a size of an
/// allocation, a length or a value of a static object does not come to a number by the machine's own operations, or to one of at most 65,536 where it is a size,
/// where a static value does not lie in its object, where a name stands for nothing, and where no function is main. `strict` says whether main may not return while
/// an allocated block lives. Where a type is not kept, as `c_text::type_kind` says, the answer is want of memory, and so it is where the graph does not have what
/// all flow graphs have.
///
/// It takes time for the items, for what stands at each point, and for each expression once for each that it stands in.
pub fn lower(
    alloc: Global,
    items: &[Item],
    text: &TypedText,
    abi: Abi,
    strict: bool,
) -> Result<Option<Flow>, NoMemory>
    ensures graph { IfOk result (λ found. (n : Numbering) (p : Program) → StandsFor n text.now p → p.items ≡ items.now → p.abi ≡ abi → p.strict ≡ strict
        → found ≡ flow_of p) }
    ensures flow { IfOk result (λ found. IfSome found IsFlow) }
    ensures exclusive { IfOk result (λ found. IfSome found IsExclusive) }
    ensures meets { IfOk result (λ found. IfSome found (λ flow. (n : Numbering) (p : Program) → StandsFor n text.now p → p.items ≡ items.now → p.abi ≡ abi → p.strict ≡ strict
        → (choices : Items Choice) (kind : ℕ) (place : Place) → Leads (text_of p) choices kind place ↔ GraphLeads flow choices kind place)) }
{
    match graph_of(alloc, items, text, abi, strict)? {
        None => Ok(None),
        Some(flow) => {
            if !is_well_formed(alloc, &flow)? {
                return Err(NoMemory);
            }
            if !is_exclusive(alloc, &flow)? {
                return Err(NoMemory);
            }
            Ok(Some(flow))
        }
    }
}
