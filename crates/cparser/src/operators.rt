ghost use Rattle.std.specs.Prelude.{◌≡◌, ◌≤◌, Some, IfOk, OnOk, if◌then◌else◌, length};
ghost use Rattle.cparser.specs.Nests.{Nests};
ghost use Rattle.cparser.specs.OperatorSteps.{operation_turn, operation_with, all_operations, choice_behind, choice, conditional_from, assignment_with, assignment_from, comma_turn, all_commas, expression_from};
ghost use Rattle.cparser.specs.ReadingSteps.{inner_at};
ghost use Rattle.cparser.specs.State.{State, rest};

use crate::grammar::Grammar;
use crate::point::Point;
use crate::reader::Reader;
use crate::wanted::Wanted;
use cbase::{BinaryOp, NoMemory};
use cevents::Event;

impl<F: Fn(&mut Reader<'_>, u32, Wanted) -> Result<(), NoMemory>> Grammar<F> {
    /// Binary operators behind an operand, no looser than a level, each to the left (C11 6.5.5 to 6.5.14).
    pub fn operations(&self, reader: &mut Reader<'_>, loosest: u32) -> Result<(), NoMemory>
        requires { Nests self.now.depth (F.pre self.now.inner) (F.post self.now.inner) }
        ensures { OnOk result (reader.new ≡ all_operations (inner_at self.now.depth) loosest reader.old) }
    {
        let mut left = reader.left();
        'turns: loop {
            if !self.operation(reader, loosest)? {
                return Ok(());
            }
            if left == 0 {
                return Ok(());
            }
            left -= 1;
        }
    }

    /// One binary operator, and whether one may follow it.
    fn operation(&self, reader: &mut Reader<'_>, loosest: u32) -> Result<bool, NoMemory>
        requires { Nests self.now.depth (F.pre self.now.inner) (F.post self.now.inner) }
        ensures { IfOk result (λ again. (go : State → State) → operation_turn (inner_at self.now.depth) loosest go reader.old ≡ (if again then go reader.new else reader.new)) }
    {
        if !reader.goes() {
            return Ok(false);
        }
        match reader.binary() {
            Some((level, op)) => self.operation_behind(reader, loosest, level, op),
            None => Ok(false),
        }
    }

    /// The binary operator that stands there, if it is no looser than `loosest`, and whether one may follow it.
    fn operation_behind(
        &self,
        reader: &mut Reader<'_>,
        loosest: u32,
        level: u8,
        op: BinaryOp,
    ) -> Result<bool, NoMemory>
        requires nests { Nests self.now.depth (F.pre self.now.inner) (F.post self.now.inner) }
        requires there { 1 ≤ length (rest reader.old) }
        ensures { IfOk result (λ again. (go : State → State) → operation_with go (inner_at self.now.depth) loosest reader.old (Some (level, op)) ≡ (if again then go reader.new else reader.new)) }
    {
        if loosest > u32::from(level) {
            return Ok(false);
        }
        if !reader.fits(self.depth) {
            reader.stop();
            return Ok(false);
        }
        let point = reader.point();
        let event = Event::Binary {
            op,
            at: reader.here()?,
        };
        let wanted = Wanted::Operation {
            loosest: u32::from(level) + 1,
        };
        reader.skip(1);
        self.ask_right(reader, wanted, point, event)?;
        Ok(true)
    }

    /// What stands behind a `?`, up to the end of what stands behind the `:`.
    #[tactic(auto, unfolding(crate::specs::OperatorSteps::choice_behind))]
    fn choice_behind(&self, reader: &mut Reader<'_>, point: Point, at: u32) -> Result<(), NoMemory>
        requires { Nests self.now.depth (F.pre self.now.inner) (F.post self.now.inner) }
        ensures { OnOk result (reader.new ≡ choice_behind (inner_at self.now.depth) point at reader.old) }
    {
        self.ask(reader, Wanted::Expression)?;
        reader.back_unless_going(point);
        reader.mark_or_back(b":", point);
        self.ask_right(reader, Wanted::Conditional, point, Event::Choose { at })
    }

    /// A `?` with what belongs to it behind an operand, where one stands there (C11 6.5.15).
    #[tactic(auto, unfolding(crate::specs::OperatorSteps::choice))]
    fn choice(&self, reader: &mut Reader<'_>) -> Result<(), NoMemory>
        requires { Nests self.now.depth (F.pre self.now.inner) (F.post self.now.inner) }
        ensures { OnOk result (reader.new ≡ choice (inner_at self.now.depth) reader.old) }
    {
        if !reader.goes() {
            return Ok(());
        }
        if !reader.has_mark(b"?") {
            return Ok(());
        }
        if !reader.fits(self.depth) {
            reader.stop();
            return Ok(());
        }
        let point = reader.point();
        let at = reader.here()?;
        reader.skip(1);
        self.choice_behind(reader, point, at)
    }

    /// A conditional expression from behind its first operand on (C11 6.5.15).
    #[tactic(auto, unfolding(crate::specs::OperatorSteps::conditional_from))]
    pub fn conditional_from(&self, reader: &mut Reader<'_>) -> Result<(), NoMemory>
        requires { Nests self.now.depth (F.pre self.now.inner) (F.post self.now.inner) }
        ensures { OnOk result (reader.new ≡ conditional_from (inner_at self.now.depth) reader.old) }
    {
        self.operations(reader, 0)?;
        self.choice(reader)
    }

    /// An assignment expression from behind its first operand on (C11 6.5.16).
    #[tactic(auto, unfolding(crate::specs::OperatorSteps::assignment_from))]
    pub fn assignment_from(&self, reader: &mut Reader<'_>) -> Result<(), NoMemory>
        requires { Nests self.now.depth (F.pre self.now.inner) (F.post self.now.inner) }
        ensures { OnOk result (reader.new ≡ assignment_from (inner_at self.now.depth) reader.old) }
    {
        if !reader.goes() {
            return Ok(());
        }
        match reader.assignment() {
            Some(op) => self.assignment_behind(reader, op),
            None => self.conditional_from(reader),
        }
    }

    /// The assignment operator that stands there with its right operand, behind a unary expression.
    fn assignment_behind(
        &self,
        reader: &mut Reader<'_>,
        op: Option<BinaryOp>,
    ) -> Result<(), NoMemory>
        requires nests { Nests self.now.depth (F.pre self.now.inner) (F.post self.now.inner) }
        requires there { 1 ≤ length (rest reader.old) }
        ensures { OnOk result (reader.new ≡ assignment_with (inner_at self.now.depth) reader.old (Some op)) }
    {
        if !reader.unary {
            return self.conditional_from(reader);
        }
        if !reader.fits(self.depth) {
            reader.stop();
            return Ok(());
        }
        let point = reader.point();
        let event = Event::Assign {
            op,
            at: reader.here()?,
        };
        reader.skip(1);
        self.ask_right(reader, Wanted::Assignment, point, event)
    }

    /// An expression from behind its first operand on (C11 6.5.17).
    #[tactic(auto, unfolding(crate::specs::OperatorSteps::expression_from))]
    pub fn expression_from(&self, reader: &mut Reader<'_>) -> Result<(), NoMemory>
        requires { Nests self.now.depth (F.pre self.now.inner) (F.post self.now.inner) }
        ensures { OnOk result (reader.new ≡ expression_from (inner_at self.now.depth) reader.old) }
    {
        self.assignment_from(reader)?;
        self.commas(reader)
    }

    /// Commas behind an operand, each to the left (C11 6.5.17).
    fn commas(&self, reader: &mut Reader<'_>) -> Result<(), NoMemory>
        requires { Nests self.now.depth (F.pre self.now.inner) (F.post self.now.inner) }
        ensures { OnOk result (reader.new ≡ all_commas (inner_at self.now.depth) reader.old) }
    {
        let mut left = reader.left();
        'turns: loop {
            if !self.comma(reader)? {
                return Ok(());
            }
            if left == 0 {
                return Ok(());
            }
            left -= 1;
        }
    }

    /// One comma with its right operand, and whether one more may follow it.
    fn comma(&self, reader: &mut Reader<'_>) -> Result<bool, NoMemory>
        requires { Nests self.now.depth (F.pre self.now.inner) (F.post self.now.inner) }
        ensures { IfOk result (λ again. (go : State → State) → comma_turn (inner_at self.now.depth) go reader.old ≡ (if again then go reader.new else reader.new)) }
    {
        if !reader.goes() {
            return Ok(false);
        }
        if !reader.has_mark(b",") {
            return Ok(false);
        }
        if !reader.fits(self.depth) {
            reader.stop();
            return Ok(false);
        }
        let point = reader.point();
        let event = Event::Binary {
            op: BinaryOp::Comma,
            at: reader.here()?,
        };
        reader.skip(1);
        self.ask_right(reader, Wanted::Assignment, point, event)?;
        Ok(true)
    }
}
