ghost use Rattle.std.specs.Prelude.{◌≡◌, OnOk, ◌≤◌, length};
ghost use Rattle.cparser.specs.Nests.{Nests};
ghost use Rattle.cparser.specs.ReadingSteps.{inner_at};
ghost use Rattle.cparser.specs.State.{rest};
ghost use Rattle.cparser.specs.DeclarationSteps.{empty_braces, member_part, next_part, init_part, init_parts, listed_braces, in_braces, valued, value_initializer, initializer};

use crate::grammar::Grammar;
use crate::listed::Listed;
use crate::reader::Reader;
use crate::wanted::Wanted;
use cbase::NoMemory;
use cevents::Event;

impl<'a> Reader<'a> {
    /// Reads the `}` of an initialiser without parts.
    #[tactic(auto, using(crate::proofs::RestsWritten::there_written))]
    fn empty_braces(&mut self) -> Result<(), NoMemory>
        requires { 1 ≤ length (rest self.old) }
        ensures { OnOk result (self.new ≡ empty_braces self.old) }
    {
        self.write(Event::NoParts)?;
        self.skip(1);
        self.make(Event::Braces)
    }

    /// Writes the expression that was read last as an initialiser.
    #[tactic(auto, unfolding(crate::specs::DeclarationSteps::valued))]
    fn valued(&mut self) -> Result<(), NoMemory>
        ensures { OnOk result (self.new ≡ valued self.old) }
    {
        let after = self.here()?;
        self.make(Event::Value { after })
    }
}

impl<F: Fn(&mut Reader<'_>, u32, Wanted) -> Result<(), NoMemory>> Grammar<F> {
    /// Reads a part of a named member from behind its `.` on (C11 6.7.9).
    #[tactic(auto, unfolding(crate::specs::DeclarationSteps::member_part))]
    fn member_part(&self, reader: &mut Reader<'_>) -> Result<(), NoMemory>
        requires { Nests self.now.depth (F.pre self.now.inner) (F.post self.now.inner) }
        ensures { OnOk result (reader.new ≡ member_part (inner_at self.now.depth) reader.old) }
    {
        if !reader.has_name() {
            reader.lose();
            return Ok(());
        }
        let at = reader.here()?;
        reader.skip(1);
        reader.mark(b"=");
        self.ask_whole(reader, Wanted::Initializer)?;
        reader.write(Event::Part { member: Some(at) })
    }

    /// Reads a part of the next member.
    fn next_part(&self, reader: &mut Reader<'_>) -> Result<(), NoMemory>
        requires { Nests self.now.depth (F.pre self.now.inner) (F.post self.now.inner) }
        ensures { OnOk result (reader.new ≡ next_part (inner_at self.now.depth) reader.old) }
    {
        self.ask_whole(reader, Wanted::Initializer)?;
        reader.write(Event::Part { member: None })
    }

    /// Reads a part of a list in braces, which may be that of a named member (C11 6.7.9).
    #[tactic(auto, unfolding(crate::specs::DeclarationSteps::init_part))]
    pub fn init_part(&self, reader: &mut Reader<'_>) -> Result<(), NoMemory>
        requires { Nests self.now.depth (F.pre self.now.inner) (F.post self.now.inner) }
        ensures { OnOk result (reader.new ≡ init_part (inner_at self.now.depth) reader.old) }
    {
        if !reader.goes() {
            return Ok(());
        }
        if !reader.has_mark(b".") {
            return self.next_part(reader);
        }
        reader.skip(1);
        self.member_part(reader)
    }

    /// Reads the parts of a list in braces.
    #[tactic(auto, unfolding(crate::specs::DeclarationSteps::init_parts))]
    fn init_parts(&self, reader: &mut Reader<'_>) -> Result<(), NoMemory>
        requires { Nests self.now.depth (F.pre self.now.inner) (F.post self.now.inner) }
        ensures { OnOk result (reader.new ≡ init_parts (inner_at self.now.depth) reader.old) }
    {
        self.parts(reader, Listed::InitPart)
    }

    /// Reads the parts of a list in braces, of which there is one, and the `}`.
    fn listed_braces(&self, reader: &mut Reader<'_>) -> Result<(), NoMemory>
        requires { Nests self.now.depth (F.pre self.now.inner) (F.post self.now.inner) }
        ensures { OnOk result (reader.new ≡ listed_braces (inner_at self.now.depth) reader.old) }
    {
        reader.write(Event::NoParts)?;
        self.init_parts(reader)?;
        reader.over_comma()?;
        reader.mark(b"}");
        reader.make(Event::Braces)
    }

    /// Reads an initialiser in braces from behind its `{` on.
    #[tactic(auto, unfolding(crate::specs::DeclarationSteps::in_braces))]
    fn in_braces(&self, reader: &mut Reader<'_>) -> Result<(), NoMemory>
        requires { Nests self.now.depth (F.pre self.now.inner) (F.post self.now.inner) }
        ensures { OnOk result (reader.new ≡ in_braces (inner_at self.now.depth) reader.old) }
    {
        if reader.has_mark(b"}") {
            return reader.empty_braces();
        }
        self.listed_braces(reader)
    }

    /// Reads an expression as an initialiser.
    fn value_initializer(&self, reader: &mut Reader<'_>) -> Result<(), NoMemory>
        requires { Nests self.now.depth (F.pre self.now.inner) (F.post self.now.inner) }
        ensures { OnOk result (reader.new ≡ value_initializer (inner_at self.now.depth) reader.old) }
    {
        self.ask_whole(reader, Wanted::Assignment)?;
        reader.valued()
    }

    /// Reads an initialiser (C11 6.7.9).
    #[tactic(auto, unfolding(crate::specs::DeclarationSteps::initializer))]
    pub fn initializer(&self, reader: &mut Reader<'_>) -> Result<(), NoMemory>
        requires { Nests self.now.depth (F.pre self.now.inner) (F.post self.now.inner) }
        ensures { OnOk result (reader.new ≡ initializer (inner_at self.now.depth) reader.old) }
    {
        if !reader.goes() {
            return Ok(());
        }
        if !reader.has_mark(b"{") {
            return self.value_initializer(reader);
        }
        reader.skip(1);
        self.in_braces(reader)
    }
}
