ghost use Rattle.std.specs.Prelude.{◌≡◌, ◌≤◌, IsTrue, OnOk, length};
ghost use Rattle.cparser.specs.Nests.{Nests};
ghost use Rattle.cparser.specs.ReadingSteps.{inner_at};
ghost use Rattle.cparser.specs.State.{rest};
ghost use Rattle.cgrammar.specs.ReadOperands.{begins_type_in_brackets};
ghost use Rattle.cparser.specs.OperandSteps.{unary_alone, inner_closed, statement_expression, cast_to, bracket, begins, size_of, size_of_type, assert_fail, counted, unary, primary, prefixed, plain_with, plain};

use crate::grammar::Grammar;
use crate::reader::Reader;
use crate::status::Status;
use crate::wanted::Wanted;
use cbase::{NoMemory, UnaryOp};
use cevents::Event;
use cgrammar::{OperandStart, begins_type};

impl<'a> Reader<'a> {
    /// Nothing is read where the operand is a cast: a unary expression alone may stand here (C11 6.5.3).
    #[tactic(auto, unfolding(crate::specs::OperandSteps::unary_alone))]
    pub fn unary_alone(&mut self)
        ensures { self.new ≡ unary_alone self.old }
    {
        match self.status {
            Status::Nothing => {}
            Status::Going | Status::Stopped => {
                if !self.unary {
                    self.lose();
                }
            }
        }
    }

    /// Reads a statement expression that begins with the `(` at `at`, from behind its block on, whose `}` was read last.
    #[tactic(auto, unfolding(crate::specs::OperandSteps::inner_closed))]
    fn inner_closed(&mut self, at: u32) -> Result<(), NoMemory>
        ensures { OnOk result (self.new ≡ inner_closed at self.old) }
    {
        let close = self.last()?;
        self.mark(b")");
        self.make(Event::Inner { at, close })
    }

    /// Whether a `(` stands there with a type behind it.
    pub fn has_type_in_brackets(&self) -> bool
        ensures is { result ≡ begins_type_in_brackets self.now.scope (rest self.now) }
        ensures more { IsTrue result → 1 ≤ length (rest self.now) }
    {
        match self.rest() {
            [] | [_] => false,
            [first, second, ..] => first.is_mark(b"(") && begins_type(&self.scope, second),
        }
    }
}

impl<F: Fn(&mut Reader<'_>, u32, Wanted) -> Result<(), NoMemory>> Grammar<F> {
    /// A block in a statement expression, behind its `(` (a GNU form).
    #[tactic(auto, unfolding(crate::specs::OperandSteps::statement_expression))]
    fn statement_expression(&self, reader: &mut Reader<'_>, at: u32) -> Result<(), NoMemory>
        requires { Nests self.now.depth (F.pre self.now.inner) (F.post self.now.inner) }
        ensures { OnOk result (reader.new ≡ statement_expression (inner_at self.now.depth) at reader.old) }
    {
        self.block(reader)?;
        reader.inner_closed(at)?;
        self.postfixes_from(reader, at as usize)
    }

    /// A cast behind its `(` (C11 6.5.4).
    #[tactic(auto, unfolding(crate::specs::OperandSteps::cast_to))]
    fn cast_to(&self, reader: &mut Reader<'_>, at: u32) -> Result<(), NoMemory>
        requires { Nests self.now.depth (F.pre self.now.inner) (F.post self.now.inner) }
        ensures { OnOk result (reader.new ≡ cast_to (inner_at self.now.depth) at reader.old) }
    {
        self.type_name(reader)?;
        reader.mark(b")");
        self.ask(reader, Wanted::Cast)?;
        reader.wrap(Event::Cast { at })?;
        reader.as_operand(false);
        Ok(())
    }

    /// What begins with a `(` at the token `at` and is no expression in brackets, behind the `(`.
    #[tactic(auto, unfolding(crate::specs::OperandSteps::bracket))]
    fn bracket(&self, reader: &mut Reader<'_>, at: u32) -> Result<(), NoMemory>
        requires { Nests self.now.depth (F.pre self.now.inner) (F.post self.now.inner) }
        ensures { OnOk result (reader.new ≡ bracket (inner_at self.now.depth) at reader.old) }
    {
        if reader.has_mark(b"{") {
            return self.statement_expression(reader, at);
        }
        self.cast_to(reader, at)
    }

    /// `sizeof` behind its word (C11 6.5.3.4).
    #[tactic(auto, unfolding(crate::specs::OperandSteps::size_of))]
    fn size_of(&self, reader: &mut Reader<'_>, at: u32) -> Result<(), NoMemory>
        requires { Nests self.now.depth (F.pre self.now.inner) (F.post self.now.inner) }
        ensures { OnOk result (reader.new ≡ size_of (inner_at self.now.depth) at reader.old) }
    {
        if reader.has_type_in_brackets() {
            reader.skip(1);
            return self.size_of_type(reader, at);
        }
        self.ask(reader, Wanted::Cast)?;
        reader.unary_alone();
        reader.wrap(Event::SizeOf { at })?;
        reader.as_operand(true);
        Ok(())
    }

    /// `sizeof` of a type, behind the `(` (C11 6.5.3.4).
    fn size_of_type(&self, reader: &mut Reader<'_>, at: u32) -> Result<(), NoMemory>
        requires { Nests self.now.depth (F.pre self.now.inner) (F.post self.now.inner) }
        ensures { OnOk result (reader.new ≡ size_of_type (inner_at self.now.depth) at reader.old) }
    {
        self.type_name(reader)?;
        reader.mark(b")");
        reader.make(Event::SizeOfType { at })?;
        reader.as_operand(true);
        Ok(())
    }

    /// A call of `__assert_fail` behind its word.
    #[tactic(auto, unfolding(crate::specs::OperandSteps::assert_fail))]
    fn assert_fail(&self, reader: &mut Reader<'_>, at: u32) -> Result<(), NoMemory>
        requires { Nests self.now.depth (F.pre self.now.inner) (F.post self.now.inner) }
        ensures { OnOk result (reader.new ≡ assert_fail (inner_at self.now.depth) at reader.old) }
    {
        reader.mark(b"(");
        reader.over_matched()?;
        reader.make(Event::AssertFail { at })?;
        self.postfixes_from(reader, at as usize)
    }

    /// A unary expression behind the `++` or `--` at the token `at` (C11 6.5.3.1).
    fn counted(&self, reader: &mut Reader<'_>, up: bool, at: u32) -> Result<(), NoMemory>
        requires { Nests self.now.depth (F.pre self.now.inner) (F.post self.now.inner) }
        ensures { OnOk result (reader.new ≡ counted (inner_at self.now.depth) up at reader.old) }
    {
        self.ask(reader, Wanted::Cast)?;
        reader.unary_alone();
        reader.wrap(Event::Count {
            up,
            after: false,
            at,
        })?;
        reader.as_operand(true);
        Ok(())
    }

    /// An operand behind the prefix operator at the token `at` (C11 6.5.3.2, 6.5.3.3).
    fn unary(&self, reader: &mut Reader<'_>, op: UnaryOp, at: u32) -> Result<(), NoMemory>
        requires { Nests self.now.depth (F.pre self.now.inner) (F.post self.now.inner) }
        ensures { OnOk result (reader.new ≡ unary (inner_at self.now.depth) op at reader.old) }
    {
        self.ask(reader, Wanted::Cast)?;
        reader.wrap(Event::Unary { op, at })?;
        reader.as_operand(true);
        Ok(())
    }

    /// An operand that begins with the name or the constant that stands there (C11 6.5.1).
    fn primary(&self, reader: &mut Reader<'_>, event: Event) -> Result<(), NoMemory>
        requires nests { Nests self.now.depth (F.pre self.now.inner) (F.post self.now.inner) }
        requires there { 1 ≤ length (rest reader.old) }
        ensures { OnOk result (reader.new ≡ primary (inner_at self.now.depth) event reader.old) }
    {
        let at = reader.at;
        reader.skip(1);
        reader.make(event)?;
        self.postfixes_from(reader, at)
    }

    /// An operand that begins with a mark or a word at the token `at`, from behind that on.
    fn prefixed(
        &self,
        reader: &mut Reader<'_>,
        at: u32,
        start: OperandStart,
    ) -> Result<(), NoMemory>
        requires { Nests self.now.depth (F.pre self.now.inner) (F.post self.now.inner) }
        ensures { OnOk result (reader.new ≡ prefixed (inner_at self.now.depth) at reader.old start) }
    {
        match start {
            OperandStart::Bracket => self.bracket(reader, at),
            OperandStart::Count(up) => self.counted(reader, up, at),
            OperandStart::Unary(op) => self.unary(reader, op, at),
            OperandStart::SizeOf => self.size_of(reader, at),
            OperandStart::OffsetOf => self.offset_of(reader, at),
            OperandStart::AssertFail => self.assert_fail(reader, at),
            OperandStart::Name | OperandStart::Constant | OperandStart::Other => Ok(()),
        }
    }

    /// An operand that begins with no bracket around an expression (C11 6.5.1 to 6.5.4).
    #[tactic(auto, unfolding(crate::specs::OperandSteps::plain))]
    pub fn plain(&self, reader: &mut Reader<'_>) -> Result<(), NoMemory>
        requires { Nests self.now.depth (F.pre self.now.inner) (F.post self.now.inner) }
        ensures { OnOk result (reader.new ≡ plain (inner_at self.now.depth) reader.old) }
    {
        if !reader.goes() {
            return Ok(());
        }
        let start = reader.operand();
        self.plain_with(reader, start)
    }

    /// An operand that begins so.
    fn plain_with(&self, reader: &mut Reader<'_>, start: OperandStart) -> Result<(), NoMemory>
        requires nests { Nests self.now.depth (F.pre self.now.inner) (F.post self.now.inner) }
        requires there { IsTrue (begins start) → 1 ≤ length (rest reader.old) }
        ensures { OnOk result (reader.new ≡ plain_with (inner_at self.now.depth) reader.old start) }
    {
        let at = reader.here()?;
        match start {
            OperandStart::Name => self.primary(reader, Event::Name { at }),
            OperandStart::Constant => self.primary(reader, Event::Constant { at }),
            OperandStart::Other => {
                reader.lose();
                Ok(())
            }
            _ => {
                reader.skip(1);
                self.prefixed(reader, at, start)
            }
        }
    }
}
