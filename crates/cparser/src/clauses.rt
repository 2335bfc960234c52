ghost use Rattle.std.specs.Prelude.{◌≡◌, false, OnOk};
ghost use Rattle.cgrammar.specs.Firsts.{begins_declaration};
ghost use Rattle.cgrammar.specs.Outcomes.{has_first};
ghost use Rattle.cgrammar.specs.Terminals.{is_mark};
ghost use Rattle.cparser.specs.Nests.{Nests};
ghost use Rattle.cparser.specs.ReadingSteps.{inner_at};
ghost use Rattle.cparser.specs.State.{rest};
ghost use Rattle.cparser.specs.StatementSteps.{maybe, declared_statement, expression_statement, clause, untyped, tested};

use crate::grammar::Grammar;
use crate::reader::Reader;
use crate::wanted::Wanted;
use cbase::NoMemory;
use cevents::Event;

impl<F: Fn(&mut Reader<'_>, u32, Wanted) -> Result<(), NoMemory>> Grammar<F> {
    /// Reads an expression that may be left out before the mark.
    #[tactic(auto, unfolding(crate::specs::StatementSteps::maybe))]
    pub fn maybe(&self, reader: &mut Reader<'_>, ends: &[u8]) -> Result<(), NoMemory>
        requires { Nests self.now.depth (F.pre self.now.inner) (F.post self.now.inner) }
        ensures { OnOk result (reader.new ≡ maybe (inner_at self.now.depth) (is_mark ends.now) reader.old) }
    {
        if !reader.goes() {
            return Ok(());
        }
        if reader.has_mark(ends) {
            return reader.write(Event::NoExpression);
        }
        self.ask_whole(reader, Wanted::Expression)?;
        reader.write(Event::OneExpression)
    }

    /// Reads a declaration as a statement.
    #[tactic(auto, unfolding(crate::specs::StatementSteps::declared_statement))]
    pub fn declared_statement(&self, reader: &mut Reader<'_>) -> Result<(), NoMemory>
        requires { Nests self.now.depth (F.pre self.now.inner) (F.post self.now.inner) }
        ensures { OnOk result (reader.new ≡ declared_statement (inner_at self.now.depth) reader.old) }
    {
        let first = reader.here()?;
        self.declaration(reader)?;
        reader.declared(first)
    }

    /// Reads an expression with its `;` (C11 6.8.3).
    #[tactic(auto, unfolding(crate::specs::StatementSteps::expression_statement))]
    pub fn expression_statement(&self, reader: &mut Reader<'_>) -> Result<(), NoMemory>
        requires { Nests self.now.depth (F.pre self.now.inner) (F.post self.now.inner) }
        ensures { OnOk result (reader.new ≡ expression_statement (inner_at self.now.depth) reader.old) }
    {
        let first = reader.here()?;
        self.ask_whole(reader, Wanted::Expression)?;
        reader.write(Event::OneExpression)?;
        reader.mark(b";");
        reader.evaluated(first)
    }

    /// Reads a declaration, or an expression that may be left out with its `;` (C11 6.8.3, 6.8.5.3).
    #[tactic(auto, unfolding(crate::specs::StatementSteps::clause))]
    pub fn clause(&self, reader: &mut Reader<'_>) -> Result<(), NoMemory>
        requires { Nests self.now.depth (F.pre self.now.inner) (F.post self.now.inner) }
        ensures { OnOk result (reader.new ≡ clause (inner_at self.now.depth) reader.old) }
    {
        if !reader.goes() {
            return Ok(());
        }
        if reader.has_declaration() {
            return self.declared_statement(reader);
        }
        self.undeclared_clause(reader)
    }

    /// Reads an expression that may be left out with its `;`, where no declaration begins (C11 6.8.3).
    #[tactic(auto, unfolding(crate::specs::StatementSteps::clause))]
    pub fn undeclared_clause(&self, reader: &mut Reader<'_>) -> Result<(), NoMemory>
        requires nests { Nests self.now.depth (F.pre self.now.inner) (F.post self.now.inner) }
        requires none { has_first (begins_declaration reader.old.scope) (rest reader.old) ≡ false }
        ensures { OnOk result (reader.new ≡ clause (inner_at self.now.depth) reader.old) }
    {
        if !reader.goes() {
            return Ok(());
        }
        if reader.has_mark(b";") {
            return reader.empty_statement();
        }
        self.expression_statement(reader)
    }

    /// Reads an expression behind a `(`, where no name of a typedef stands.
    #[tactic(auto, unfolding(crate::specs::StatementSteps::untyped))]
    pub fn untyped(&self, reader: &mut Reader<'_>) -> Result<(), NoMemory>
        requires { Nests self.now.depth (F.pre self.now.inner) (F.post self.now.inner) }
        ensures { OnOk result (reader.new ≡ untyped (inner_at self.now.depth) reader.old) }
    {
        if reader.goes() && reader.has_typedef() {
            reader.lose();
            return Ok(());
        }
        self.ask_whole(reader, Wanted::Expression)
    }

    /// Reads an expression in brackets.
    #[tactic(auto, unfolding(crate::specs::StatementSteps::tested))]
    pub fn tested(&self, reader: &mut Reader<'_>) -> Result<(), NoMemory>
        requires { Nests self.now.depth (F.pre self.now.inner) (F.post self.now.inner) }
        ensures { OnOk result (reader.new ≡ tested (inner_at self.now.depth) reader.old) }
    {
        reader.mark(b"(");
        self.untyped(reader)?;
        reader.mark(b")");
        Ok(())
    }
}
