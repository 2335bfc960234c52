//! What is made of a graph so far.
ghost use Rattle.std.specs.Prelude.{◌≡◌, ◌<◌, ◌+◌, ◌^◌, ◌∷◌, [], length, false, OnOk, IfOk};
ghost use Rattle.lower.specs.Built.{made_of};
ghost use Rattle.lowering.specs.Lowering.{nothing_made};
ghost use Rattle.lowering.specs.Placing.{behind_widths, emit, failed, named_from, with_head, with_objects, with_point, with_registers, stands_at};

use c_machine::Object;
use cbase::{List, NoMemory, Place};
use flow::{FlowEdge, Instr, Standing, Variable, Width};
use lowering::names::{Named, push_named};
use std::alloc::Global;

/// What is made of a graph so far: points and registers are numbered from 0.
#[derive(Drop)]
pub struct Builder {
    /// How many points there are.
    pub points: u32,
    /// How many registers there are.
    pub registers: u32,
    /// The edges, in the order in which they were made.
    pub edges: List<FlowEdge>,
    /// What stands at each point.
    pub stands: List<Standing>,
    /// The variables.
    pub variables: List<Variable>,
    /// The loop heads.
    pub heads: List<u32>,
    /// Whether there is a graph up to here.
    pub is_graph: bool,
}

impl Builder {
    /// Nothing is made. It takes no memory.
    pub fn new(alloc: Global) -> Builder
        ensures { made_of result ≡ nothing_made }
    {
        Builder {
            points: 0,
            registers: 0,
            edges: List::new(alloc),
            stands: List::new(alloc),
            variables: List::new(alloc),
            heads: List::new(alloc),
            is_graph: true,
        }
    }

    /// There is no graph.
    pub fn fail(&mut self)
        ensures { made_of self.new ≡ failed (made_of self.old) }
    {
        self.is_graph = false;
    }

    /// An edge more.
    pub fn emit(&mut self, from: u32, instr: Instr, to: u32, place: Place) -> Result<(), NoMemory>
        ensures { OnOk result (made_of self.new ≡ emit (made_of self.old) from instr to place) }
    {
        self.edges.push(FlowEdge {
            from,
            to,
            instr,
            place,
        })
    }

    /// A point more, at which this stands. It answers its number; where there are more than can be numbered, memory is wanting.
    pub fn point(&mut self, standing: Standing) -> Result<u32, NoMemory>
        ensures { IfOk result (λ point. (point ≡ self.old.points) × (made_of self.new ≡ with_point standing (made_of self.old))) }
    {
        let point = self.points;
        match point.checked_add(1) {
            None => Err(NoMemory),
            Some(points) => {
                self.stands.push(standing)?;
                self.points = points;
                Ok(point)
            }
        }
    }

    /// Two points more, at each of which this stands. It answers the number of the first one.
    pub fn two_points(&mut self, alloc: Global, standing: &Standing) -> Result<u32, NoMemory>
        ensures is { IfOk result (λ point. (point ≡ self.old.points) × (made_of self.new ≡ with_point standing.now (with_point standing.now (made_of self.old)))) }
        ensures fits { IfOk result (λ point. point + 1 < 2 ^ 32) }
    {
        let first = self.point(copied(alloc, standing)?)?;
        let _other = self.point(copied(alloc, standing)?)?;
        Ok(first)
    }

    /// So many registers more. It answers the number of the first one; where there are more than can be numbered, memory is wanting.
    pub fn registers(&mut self, count: u32) -> Result<u32, NoMemory>
        ensures is { IfOk result (λ first. (first ≡ self.old.registers) × (made_of self.new ≡ with_registers count (made_of self.old))) }
        ensures fits { IfOk result (λ first. first + count < 2 ^ 32) }
    {
        let first = self.registers;
        match first.checked_add(count) {
            None => Err(NoMemory),
            Some(registers) => {
                self.registers = registers;
                Ok(first)
            }
        }
    }

    /// A loop head more. Registers that are taken from there on are none of those that stand there.
    pub fn head(&mut self, point: u32) -> Result<(), NoMemory>
        ensures { OnOk result (made_of self.new ≡ with_head point (made_of self.old)) }
    {
        let behind = self.registers_behind(point)?;
        self.registers = self.registers.max(behind);
        self.heads.push(point)
    }

    /// Variables more, for objects, which are static or not. Where one has more than 65,536 bytes there is no graph.
    #[tactic(auto, using(lowering::proofs::ObjectsMade::one_more, lowering::proofs::ObjectsMade::none_left))]
    pub fn objects(&mut self, fixed: bool, objects: &[Object]) -> Result<(), NoMemory>
        ensures { OnOk result (made_of self.new ≡ with_objects fixed objects.now (made_of self.old)) }
    {
        for object in objects {
            self.object(fixed, *object)?;
        }
        Ok(())
    }

    /// Objects of a block get variables. Where these are more than can be numbered, memory is wanting.
    pub fn named(&mut self, alloc: Global, objects: &[Object]) -> Result<List<Named>, NoMemory>
        ensures { IfOk result (λ names. (names ≡ named_from (length self.old.variables) objects.now) × (made_of self.new ≡ with_objects false objects.now (made_of self.old))) }
    {
        let Ok(first) = u32::try_from(self.variables.len()) else {
            return Err(NoMemory);
        };
        let mut names = List::new(alloc);
        push_named(&mut names, first, objects)?;
        self.objects(false, objects)?;
        Ok(names)
    }

    /// A variable more, for an object.
    fn object(&mut self, fixed: bool, object: Object) -> Result<(), NoMemory>
        ensures { OnOk result (made_of self.new ≡ with_objects fixed (object ∷ []) (made_of self.old)) }
    {
        let Ok(size) = u32::try_from(object.bytes) else {
            return Err(NoMemory);
        };
        self.variables.push(Variable { size, fixed })?;
        self.is_graph = self.is_graph && size <= 65536;
        Ok(())
    }

    /// The first register behind all that stand at a point. Where there is none, memory is wanting.
    fn registers_behind(&self, point: u32) -> Result<u32, NoMemory>
        ensures { IfOk result (λ behind. behind ≡ behind_widths (stands_at (made_of self.now) point).registers) }
    {
        match self.stands.as_slice().get(point as usize) {
            None => Ok(0),
            Some(standing) => behind_widths(standing.registers.as_slice()),
        }
    }

    /// What stands at a point. It takes time and memory for what stands there.
    pub fn stands_at(&self, alloc: Global, point: u32) -> Result<Standing, NoMemory>
        ensures { IfOk result (λ standing. standing ≡ stands_at (made_of self.now) point) }
    {
        match self.stands.as_slice().get(point as usize) {
            None => Ok(Standing {
                variables: List::new(alloc),
                registers: List::new(alloc),
            }),
            Some(standing) => copied(alloc, standing),
        }
    }
}

/// The first register behind all of these. Where there is none, memory is wanting.
fn behind_widths(widths: &[Width]) -> Result<u32, NoMemory>
    ensures { IfOk result (λ behind. behind ≡ behind_widths widths.now) }
{
    let mut most = 0;
    for width in widths {
        match width.register.checked_add(1) {
            None => return Err(NoMemory),
            Some(next) => most = next.max(most),
        }
    }
    Ok(most)
}

/// The same variables and registers.
pub(crate) fn copied(alloc: Global, standing: &Standing) -> Result<Standing, NoMemory>
    ensures { IfOk result (λ copy. copy ≡ standing.now) }
{
    let variables = standing.variables.as_slice().to_vec(alloc)?;
    let registers = standing.registers.as_slice().to_vec(alloc)?;
    Ok(Standing {
        variables: List::from_vec(variables),
        registers: List::from_vec(registers),
    })
}
