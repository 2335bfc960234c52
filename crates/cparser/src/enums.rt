ghost use Rattle.std.specs.Prelude.{◌≡◌, OnOk};
ghost use Rattle.cparser.specs.Nests.{Nests};
ghost use Rattle.cparser.specs.ReadingSteps.{inner_at};
ghost use Rattle.cparser.specs.TypeSteps.{enumerator_valued, enumerator_behind, enumerator, all_enumerators, over_comma, enum_by_tag, enum_with, enum_behind, enum_braces};

use crate::grammar::Grammar;
use crate::listed::Listed;
use crate::reader::Reader;
use crate::wanted::Wanted;
use cbase::NoMemory;
use cevents::Event;

impl<'a> Reader<'a> {
    /// Goes over a comma, which may stand before the `}` of a list in braces.
    #[tactic(auto, unfolding(crate::specs::TypeSteps::over_comma))]
    pub fn over_comma(&mut self) -> Result<(), NoMemory>
        ensures { OnOk result (self.new ≡ over_comma self.old) }
    {
        if self.goes() && self.has_mark(b",") {
            self.skip(1);
        }
        Ok(())
    }

    /// Reads an enum by its tag alone.
    fn enum_by_tag(&mut self, tag: Option<u32>) -> Result<(), NoMemory>
        ensures { OnOk result (self.new ≡ enum_by_tag tag self.old) }
    {
        match tag {
            None => {
                self.lose();
                Ok(())
            }
            Some(tag) => self.make(Event::EnumTag { tag }),
        }
    }
}

impl<F: Fn(&mut Reader<'_>, u32, Wanted) -> Result<(), NoMemory>> Grammar<F> {
    /// Reads the value of an enumeration constant, from behind its `=` on.
    fn enumerator_valued(&self, reader: &mut Reader<'_>, at: u32) -> Result<(), NoMemory>
        requires { Nests self.now.depth (F.pre self.now.inner) (F.post self.now.inner) }
        ensures { OnOk result (reader.new ≡ enumerator_valued (inner_at self.now.depth) at reader.old) }
    {
        self.ask_whole(reader, Wanted::Conditional)?;
        reader.write(Event::EnumeratorValue { name: at })?;
        reader.declare(at, false)
    }

    /// Reads what stands behind the name of an enumeration constant.
    #[tactic(auto, unfolding(crate::specs::TypeSteps::enumerator_behind))]
    fn enumerator_behind(&self, reader: &mut Reader<'_>, at: u32) -> Result<(), NoMemory>
        requires { Nests self.now.depth (F.pre self.now.inner) (F.post self.now.inner) }
        ensures { OnOk result (reader.new ≡ enumerator_behind (inner_at self.now.depth) at reader.old) }
    {
        if reader.has_mark(b"=") {
            reader.skip(1);
            return self.enumerator_valued(reader, at);
        }
        reader.write(Event::Enumerator { name: at })?;
        reader.declare(at, false)
    }

    /// Reads an enumeration constant (C11 6.7.2.2).
    #[tactic(auto, unfolding(crate::specs::TypeSteps::enumerator))]
    pub fn enumerator(&self, reader: &mut Reader<'_>) -> Result<(), NoMemory>
        requires { Nests self.now.depth (F.pre self.now.inner) (F.post self.now.inner) }
        ensures { OnOk result (reader.new ≡ enumerator (inner_at self.now.depth) reader.old) }
    {
        if !reader.goes() {
            return Ok(());
        }
        if !reader.has_name() {
            reader.lose();
            return Ok(());
        }
        let at = reader.here()?;
        reader.skip(1);
        self.enumerator_behind(reader, at)
    }

    /// Reads the constants of an enumeration.
    #[tactic(auto, unfolding(crate::specs::TypeSteps::all_enumerators))]
    fn all_enumerators(&self, reader: &mut Reader<'_>) -> Result<(), NoMemory>
        requires { Nests self.now.depth (F.pre self.now.inner) (F.post self.now.inner) }
        ensures { OnOk result (reader.new ≡ all_enumerators (inner_at self.now.depth) reader.old) }
    {
        reader.write(Event::NoEnumerators)?;
        self.parts(reader, Listed::Enumerator)
    }

    /// Reads an enum from behind its `{` on.
    fn enum_braces(&self, reader: &mut Reader<'_>, tag: Option<u32>) -> Result<(), NoMemory>
        requires { Nests self.now.depth (F.pre self.now.inner) (F.post self.now.inner) }
        ensures { OnOk result (reader.new ≡ enum_braces (inner_at self.now.depth) tag reader.old) }
    {
        self.all_enumerators(reader)?;
        reader.over_comma()?;
        reader.mark(b"}");
        reader.make(Event::Enum { tag })
    }

    /// Reads an enum from behind its tag on.
    #[tactic(auto, unfolding(crate::specs::TypeSteps::enum_with))]
    fn enum_with(&self, reader: &mut Reader<'_>, tag: Option<u32>) -> Result<(), NoMemory>
        requires { Nests self.now.depth (F.pre self.now.inner) (F.post self.now.inner) }
        ensures { OnOk result (reader.new ≡ enum_with (inner_at self.now.depth) tag reader.old) }
    {
        if reader.has_mark(b"{") {
            reader.skip(1);
            return self.enum_braces(reader, tag);
        }
        reader.enum_by_tag(tag)
    }

    /// Reads an enum from behind its word on (C11 6.7.2.2).
    #[tactic(auto, unfolding(crate::specs::TypeSteps::enum_behind))]
    pub fn enum_behind(&self, reader: &mut Reader<'_>) -> Result<(), NoMemory>
        requires { Nests self.now.depth (F.pre self.now.inner) (F.post self.now.inner) }
        ensures { OnOk result (reader.new ≡ enum_behind (inner_at self.now.depth) reader.old) }
    {
        let tag = reader.tag()?;
        reader.over_tag()?;
        self.enum_with(reader, tag)
    }
}
