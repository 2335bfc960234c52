ghost use Rattle.std.specs.Prelude.{◌≡◌, OnOk};
ghost use Rattle.cparser.specs.Nests.{Nests};
ghost use Rattle.cparser.specs.ReadingSteps.{inner_at};
ghost use Rattle.cparser.specs.StatementSteps.{substatement, otherwise_behind, if_tested, if_behind, while_tested, while_behind, do_behind, for_closed, for_next, for_behind, return_behind};

use crate::grammar::Grammar;
use crate::reader::Reader;
use crate::wanted::Wanted;
use cbase::NoMemory;
use cevents::Event;

impl<F: Fn(&mut Reader<'_>, u32, Wanted) -> Result<(), NoMemory>> Grammar<F> {
    /// Reads a statement in an `if` or in a loop, a block for names (C11 6.8.4p3, 6.8.5p5).
    #[tactic(auto, unfolding(crate::specs::StatementSteps::substatement))]
    fn substatement(&self, reader: &mut Reader<'_>) -> Result<(), NoMemory>
        requires { Nests self.now.depth (F.pre self.now.inner) (F.post self.now.inner) }
        ensures { OnOk result (reader.new ≡ substatement (inner_at self.now.depth) reader.old) }
    {
        reader.enter()?;
        self.ask_whole(reader, Wanted::Statement)?;
        reader.leave();
        Ok(())
    }

    /// Reads what stands behind the first statement of an `if`, whose test ends with the `)` at `close`: an `else` belongs to
    /// the nearest (C11 6.8.4.1).
    #[tactic(auto, unfolding(crate::specs::StatementSteps::otherwise_behind))]
    fn otherwise_behind(
        &self,
        reader: &mut Reader<'_>,
        first: u32,
        close: u32,
    ) -> Result<(), NoMemory>
        requires { Nests self.now.depth (F.pre self.now.inner) (F.post self.now.inner) }
        ensures { OnOk result (reader.new ≡ otherwise_behind (inner_at self.now.depth) first close reader.old) }
    {
        if !reader.goes() {
            return Ok(());
        }
        if !reader.has_word(b"else") {
            return reader.make(Event::If { first, close });
        }
        reader.skip(1);
        self.substatement(reader)?;
        reader.make(Event::IfElse { first, close })
    }

    /// Reads an `if` from behind its test on, whose `)` was read last (C11 6.8.4.1).
    #[tactic(auto, unfolding(crate::specs::StatementSteps::if_tested))]
    fn if_tested(&self, reader: &mut Reader<'_>, first: u32) -> Result<(), NoMemory>
        requires { Nests self.now.depth (F.pre self.now.inner) (F.post self.now.inner) }
        ensures { OnOk result (reader.new ≡ if_tested (inner_at self.now.depth) first reader.old) }
    {
        let close = reader.last()?;
        self.substatement(reader)?;
        self.otherwise_behind(reader, first, close)
    }

    /// Reads an `if` from behind its word on, a scope of its own (C11 6.8.4.1).
    #[tactic(auto, unfolding(crate::specs::StatementSteps::if_behind))]
    pub fn if_behind(&self, reader: &mut Reader<'_>, first: u32) -> Result<(), NoMemory>
        requires { Nests self.now.depth (F.pre self.now.inner) (F.post self.now.inner) }
        ensures { OnOk result (reader.new ≡ if_behind (inner_at self.now.depth) first reader.old) }
    {
        reader.enter()?;
        self.tested(reader)?;
        self.if_tested(reader, first)?;
        reader.leave();
        Ok(())
    }

    /// Reads a `while` from behind its test on, whose `)` was read last (C11 6.8.5.1).
    #[tactic(auto, unfolding(crate::specs::StatementSteps::while_tested))]
    fn while_tested(&self, reader: &mut Reader<'_>, first: u32) -> Result<(), NoMemory>
        requires { Nests self.now.depth (F.pre self.now.inner) (F.post self.now.inner) }
        ensures { OnOk result (reader.new ≡ while_tested (inner_at self.now.depth) first reader.old) }
    {
        let close = reader.last()?;
        self.substatement(reader)?;
        reader.make(Event::While { first, close })
    }

    /// Reads a `while` from behind its word on, a scope of its own (C11 6.8.5.1).
    #[tactic(auto, unfolding(crate::specs::StatementSteps::while_behind))]
    pub fn while_behind(&self, reader: &mut Reader<'_>, first: u32) -> Result<(), NoMemory>
        requires { Nests self.now.depth (F.pre self.now.inner) (F.post self.now.inner) }
        ensures { OnOk result (reader.new ≡ while_behind (inner_at self.now.depth) first reader.old) }
    {
        reader.enter()?;
        self.tested(reader)?;
        self.while_tested(reader, first)?;
        reader.leave();
        Ok(())
    }

    /// Reads a `do` from behind its word on, a scope of its own (C11 6.8.5.2).
    #[tactic(auto, unfolding(crate::specs::StatementSteps::do_behind))]
    pub fn do_behind(&self, reader: &mut Reader<'_>, first: u32) -> Result<(), NoMemory>
        requires { Nests self.now.depth (F.pre self.now.inner) (F.post self.now.inner) }
        ensures { OnOk result (reader.new ≡ do_behind (inner_at self.now.depth) first reader.old) }
    {
        reader.enter()?;
        self.substatement(reader)?;
        reader.word(b"while");
        self.tested(reader)?;
        reader.do_tested(first)?;
        reader.leave();
        Ok(())
    }

    /// Reads a `for` from behind its `)` on, which was read last (C11 6.8.5.3).
    #[tactic(auto, unfolding(crate::specs::StatementSteps::for_closed))]
    fn for_closed(
        &self,
        reader: &mut Reader<'_>,
        first: u32,
        semicolon: u32,
    ) -> Result<(), NoMemory>
        requires { Nests self.now.depth (F.pre self.now.inner) (F.post self.now.inner) }
        ensures { OnOk result (reader.new ≡ for_closed (inner_at self.now.depth) first semicolon reader.old) }
    {
        let close = reader.last()?;
        self.substatement(reader)?;
        reader.make(Event::For {
            first,
            semicolon,
            close,
        })
    }

    /// Reads a `for` from behind its second `;` on, which was read last (C11 6.8.5.3).
    #[tactic(auto, unfolding(crate::specs::StatementSteps::for_next))]
    fn for_next(&self, reader: &mut Reader<'_>, first: u32) -> Result<(), NoMemory>
        requires { Nests self.now.depth (F.pre self.now.inner) (F.post self.now.inner) }
        ensures { OnOk result (reader.new ≡ for_next (inner_at self.now.depth) first reader.old) }
    {
        let semicolon = reader.last()?;
        self.maybe(reader, b")")?;
        reader.mark(b")");
        self.for_closed(reader, first, semicolon)
    }

    /// Reads a `for` from behind its word on, a scope of its own (C11 6.8.5.3).
    #[tactic(auto, unfolding(crate::specs::StatementSteps::for_behind))]
    pub fn for_behind(&self, reader: &mut Reader<'_>, first: u32) -> Result<(), NoMemory>
        requires { Nests self.now.depth (F.pre self.now.inner) (F.post self.now.inner) }
        ensures { OnOk result (reader.new ≡ for_behind (inner_at self.now.depth) first reader.old) }
    {
        reader.mark(b"(");
        reader.enter()?;
        self.ask_whole(reader, Wanted::Clause)?;
        self.maybe(reader, b";")?;
        reader.mark(b";");
        self.for_next(reader, first)?;
        reader.leave();
        Ok(())
    }

    /// Reads a `return` from behind its word on (C11 6.8.6.4).
    #[tactic(auto, unfolding(crate::specs::StatementSteps::return_behind))]
    pub fn return_behind(&self, reader: &mut Reader<'_>, first: u32) -> Result<(), NoMemory>
        requires { Nests self.now.depth (F.pre self.now.inner) (F.post self.now.inner) }
        ensures { OnOk result (reader.new ≡ return_behind (inner_at self.now.depth) first reader.old) }
    {
        self.maybe(reader, b";")?;
        reader.mark(b";");
        reader.returned(first)
    }
}
