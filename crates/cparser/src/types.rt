ghost use Rattle.std.specs.Prelude.{◌≡◌, OnOk, ◌≤◌, IsTrue, length};
ghost use Rattle.cparser.specs.Nests.{Nests};
ghost use Rattle.cparser.specs.ReadingSteps.{inner_at};
ghost use Rattle.cparser.specs.State.{rest};
ghost use Rattle.cparser.specs.TypeSteps.{begins_so, named, type_of_type, type_of_expression, type_of, basic_with, basic, type_first, specifier_with, specifier};

use crate::grammar::Grammar;
use crate::reader::Reader;
use crate::wanted::Wanted;
use cbase::{BasicType, NoMemory};
use cevents::Event;
use cgrammar::{TypeStart, read_basic_words, type_start};

impl<'a> Reader<'a> {
    /// With what a type begins there.
    pub fn type_first(&self) -> TypeStart
        ensures is { result ≡ type_first self.now.scope (rest self.now) }
        ensures more { IsTrue (begins_so result) → 1 ≤ length (rest self.now) }
    {
        match self.rest() {
            [] => TypeStart::Other,
            [first, ..] => type_start(&self.scope, first),
        }
    }

    /// Reads the words of a basic type, where there is one.
    fn basic_with(&mut self, count: usize, basic: Option<BasicType>) -> Result<(), NoMemory>
        requires { count ≤ length (rest self.old) }
        ensures { OnOk result (self.new ≡ basic_with count self.old basic) }
    {
        match basic {
            None => {
                self.lose();
                Ok(())
            }
            Some(basic) => {
                self.skip(count);
                self.make(Event::Basic { basic })
            }
        }
    }

    /// Reads keywords of basic types, as many as there are (C11 6.7.2).
    #[tactic(auto, unfolding(crate::specs::TypeSteps::basic))]
    pub fn basic(&mut self) -> Result<(), NoMemory>
        ensures { OnOk result (self.new ≡ basic self.old) }
    {
        let words = read_basic_words(self.alloc, self.rest())?;
        self.basic_with(words.count, words.basic)
    }

    /// Reads the name of a typedef (C11 6.7.8).
    pub fn named(&mut self) -> Result<(), NoMemory>
        requires { 1 ≤ length (rest self.old) }
        ensures { OnOk result (self.new ≡ named self.old) }
    {
        let at = self.here()?;
        self.skip(1);
        self.make(Event::Named { at })
    }
}

impl<F: Fn(&mut Reader<'_>, u32, Wanted) -> Result<(), NoMemory>> Grammar<F> {
    /// Reads what stands behind the `(` of a `typeof` where it is a type.
    fn type_of_type(&self, reader: &mut Reader<'_>) -> Result<(), NoMemory>
        requires { Nests self.now.depth (F.pre self.now.inner) (F.post self.now.inner) }
        ensures { OnOk result (reader.new ≡ type_of_type (inner_at self.now.depth) reader.old) }
    {
        self.type_name(reader)?;
        reader.mark(b")");
        reader.make(Event::TypeOfType)
    }

    /// Reads what stands behind the `(` of a `typeof` where it is an expression.
    fn type_of_expression(&self, reader: &mut Reader<'_>) -> Result<(), NoMemory>
        requires { Nests self.now.depth (F.pre self.now.inner) (F.post self.now.inner) }
        ensures { OnOk result (reader.new ≡ type_of_expression (inner_at self.now.depth) reader.old) }
    {
        self.ask_whole(reader, Wanted::Expression)?;
        reader.mark(b")");
        reader.make(Event::TypeOfExpr)
    }

    /// Reads a `typeof` (a GNU form) from behind its `(` on.
    #[tactic(auto, unfolding(crate::specs::TypeSteps::type_of))]
    fn type_of(&self, reader: &mut Reader<'_>) -> Result<(), NoMemory>
        requires { Nests self.now.depth (F.pre self.now.inner) (F.post self.now.inner) }
        ensures { OnOk result (reader.new ≡ type_of (inner_at self.now.depth) reader.old) }
    {
        if !reader.goes() {
            return Ok(());
        }
        if reader.has_type() {
            return self.type_of_type(reader);
        }
        self.type_of_expression(reader)
    }

    /// Reads a type that begins so.
    fn specifier_with(&self, reader: &mut Reader<'_>, start: TypeStart) -> Result<(), NoMemory>
        requires nests { Nests self.now.depth (F.pre self.now.inner) (F.post self.now.inner) }
        requires there { IsTrue (begins_so start) → 1 ≤ length (rest reader.old) }
        ensures { OnOk result (reader.new ≡ specifier_with (inner_at self.now.depth) reader.old start) }
    {
        match start {
            TypeStart::Named => reader.named(),
            TypeStart::Basic => reader.basic(),
            TypeStart::Struct => {
                reader.skip(1);
                self.struct_behind(reader)
            }
            TypeStart::Enum => {
                reader.skip(1);
                self.enum_behind(reader)
            }
            TypeStart::TypeOf => {
                reader.skip(1);
                reader.mark(b"(");
                self.type_of(reader)
            }
            TypeStart::Other => {
                reader.lose();
                Ok(())
            }
        }
    }

    /// Reads a type (C11 6.7.2).
    #[tactic(auto, unfolding(crate::specs::TypeSteps::specifier))]
    pub fn specifier(&self, reader: &mut Reader<'_>) -> Result<(), NoMemory>
        requires { Nests self.now.depth (F.pre self.now.inner) (F.post self.now.inner) }
        ensures { OnOk result (reader.new ≡ specifier (inner_at self.now.depth) reader.old) }
    {
        if !reader.goes() {
            return Ok(());
        }
        let start = reader.type_first();
        self.specifier_with(reader, start)
    }
}
