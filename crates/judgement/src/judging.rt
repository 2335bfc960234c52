//! A program is lowered, and its graph analysed.
ghost use Rattle.std.specs.Prelude.{◌≡◌, ◌≤◌, Some, IfOk};
ghost use Rattle.expressions.specs.Context.{Agrees};
ghost use Rattle.expressions.specs.Numbers.{Numbering};
ghost use Rattle.c_machine.specs.Program.{Program};
ghost use Rattle.c_text.specs.Stands.{StandsFor};
ghost use Rattle.flow.specs.Exclusive.{IsExclusive};
ghost use Rattle.flow.specs.Valid.{IsFlow};
ghost use Rattle.lowering.specs.Lowering.{flow_of};
ghost use Rattle.trail.specs.Theorems.{HaveOffsets};
ghost use Rattle.judgement.specs.Judged.{IsJudgement};

use crate::judgement::Judgement;
use c_text::TypedText;
use cbase::{Abi, Item, NoMemory};
use driver::{Limits, analyse};
use expressions::Context;
use flow::Flow;
use lower::lower;
use std::alloc::Global;

/// What is found of the program of these items, of which typing hands on this context, within the limits.
///
/// The contract speaks of each program that the context stands for by some numbering, and there is one. `strict` says whether main may not return while an allocated
/// block lives. Where a row of the context names a type or a signature that it has not, the answer is want of memory; that no context of a checked program has
/// such a row is not proved.
pub fn judge(
    alloc: Global,
    items: &[Item],
    context: Context,
    abi: Abi,
    strict: bool,
    limits: &Limits,
) -> Result<Judgement, NoMemory>
    requires { 1 ≤ limits.now.budget }
    ensures { IfOk result (λ judgement. (n : Numbering) (p : Program) → StandsFor n context p → p.items ≡ items.now → p.abi ≡ abi → p.strict ≡ strict
        → IsJudgement p limits.now judgement) }
{
    context.has_a_numbering();
    let Some(text) = TypedText::of(alloc, context)? else {
        return Err(NoMemory);
    };
    let judgement = judge_text(alloc, items, &text, abi, strict, limits);
    drop(text);
    judgement
}

/// The same of a text, which some numbering reads.
fn judge_text(
    alloc: Global,
    items: &[Item],
    text: &TypedText,
    abi: Abi,
    strict: bool,
    limits: &Limits,
) -> Result<Judgement, NoMemory>
    requires budget { 1 ≤ limits.now.budget }
    requires read { (n : Numbering) × Agrees n text.now }
    ensures { IfOk result (λ judgement. (n : Numbering) (p : Program) → StandsFor n text.now p → p.items ≡ items.now → p.abi ≡ abi → p.strict ≡ strict
        → IsJudgement p limits.now judgement) }
{
    match lower(alloc, items, text, abi, strict)? {
        None => Ok(Judgement::NoGraph),
        Some(flow) => judge_graph(alloc, flow, limits),
    }
}

/// The same of a program with this flow graph.
#[tactic(auto, using(crate::proofs::Programs::graph_judged))]
fn judge_graph(alloc: Global, flow: Flow, limits: &Limits) -> Result<Judgement, NoMemory>
    requires budget { 1 ≤ limits.now.budget }
    requires flow { IsFlow flow }
    requires exclusive { IsExclusive flow }
    requires offsets { HaveOffsets flow }
    ensures { IfOk result (λ judgement. (p : Program) → flow_of p ≡ Some flow → IsJudgement p limits.now judgement) }
{
    let verdict = analyse(alloc, &flow, limits)?;
    Ok(Judgement::Judged { flow, verdict })
}
