ghost use Rattle.std.specs.Prelude.{◌≡◌, ◌≤◌, true, false, IsSome, OnOk, length};
ghost use Rattle.cgrammar.specs.Firsts.{begins_declaration};
ghost use Rattle.cgrammar.specs.Outcomes.{has_first};
ghost use Rattle.cparser.specs.Nests.{Nests};
ghost use Rattle.cparser.specs.ReadingSteps.{inner_at};
ghost use Rattle.cparser.specs.State.{rest};
ghost use Rattle.cparser.specs.StatementSteps.{other_statement, statement_with, statement_first, unlabeled, statement, item};

use crate::grammar::Grammar;
use crate::labels::labels_length;
use crate::reader::Reader;
use crate::wanted::Wanted;
use cbase::NoMemory;
use cgrammar::{StatementStart, statement_start};

impl<'a> Reader<'a> {
    /// With what a statement begins there, where a token stands there.
    pub fn statement_first(&self) -> Option<StatementStart>
        ensures is { result ≡ statement_first (rest self.now) }
        ensures more { IsSome result → 1 ≤ length (rest self.now) }
    {
        match self.rest() {
            [] => None,
            [first, ..] => Some(statement_start(first)),
        }
    }
}

impl<F: Fn(&mut Reader<'_>, u32, Wanted) -> Result<(), NoMemory>> Grammar<F> {
    /// Reads a statement that begins with none of the words and brackets that statements begin with. It is not asked whether a declaration
    /// begins there where that is known.
    #[tactic(auto, unfolding(crate::specs::StatementSteps::other_statement))]
    fn other_statement(&self, reader: &mut Reader<'_>, undeclared: bool) -> Result<(), NoMemory>
        requires nests { Nests self.now.depth (F.pre self.now.inner) (F.post self.now.inner) }
        requires known { undeclared ≡ true → has_first (begins_declaration reader.old.scope) (rest reader.old) ≡ false }
        ensures { OnOk result (reader.new ≡ other_statement (inner_at self.now.depth) reader.old) }
    {
        if !undeclared && reader.has_declaration() {
            reader.lose();
            return Ok(());
        }
        self.undeclared_clause(reader)
    }

    /// Reads a statement that begins so.
    fn statement_with(
        &self,
        reader: &mut Reader<'_>,
        start: StatementStart,
        undeclared: bool,
    ) -> Result<(), NoMemory>
        requires nests { Nests self.now.depth (F.pre self.now.inner) (F.post self.now.inner) }
        requires there { 1 ≤ length (rest reader.old) }
        requires known { undeclared ≡ true → has_first (begins_declaration reader.old.scope) (rest reader.old) ≡ false }
        ensures { OnOk result (reader.new ≡ statement_with (inner_at self.now.depth) reader.old start) }
    {
        let first = reader.here()?;
        match start {
            StatementStart::Block => self.block_statement(reader),
            StatementStart::If => {
                reader.skip(1);
                self.if_behind(reader, first)
            }
            StatementStart::While => {
                reader.skip(1);
                self.while_behind(reader, first)
            }
            StatementStart::Do => {
                reader.skip(1);
                self.do_behind(reader, first)
            }
            StatementStart::For => {
                reader.skip(1);
                self.for_behind(reader, first)
            }
            StatementStart::Break => {
                reader.skip(1);
                reader.break_behind(first)
            }
            StatementStart::Continue => {
                reader.skip(1);
                reader.continue_behind(first)
            }
            StatementStart::Return => {
                reader.skip(1);
                self.return_behind(reader, first)
            }
            StatementStart::Other => self.other_statement(reader, undeclared),
        }
    }

    /// Reads a statement without its labels.
    #[tactic(auto, unfolding(crate::specs::StatementSteps::unlabeled))]
    fn unlabeled(&self, reader: &mut Reader<'_>, undeclared: bool) -> Result<(), NoMemory>
        requires nests { Nests self.now.depth (F.pre self.now.inner) (F.post self.now.inner) }
        requires known { undeclared ≡ true → has_first (begins_declaration reader.old.scope) (rest reader.old) ≡ false }
        ensures { OnOk result (reader.new ≡ unlabeled (inner_at self.now.depth) reader.old) }
    {
        if !reader.goes() {
            return Ok(());
        }
        match reader.statement_first() {
            None => {
                reader.lose();
                Ok(())
            }
            Some(start) => self.statement_with(reader, start, undeclared),
        }
    }

    /// Reads a statement (C11 6.8.1). Its labels leave no trace.
    #[tactic(auto, unfolding(crate::specs::StatementSteps::statement))]
    pub fn statement(&self, reader: &mut Reader<'_>) -> Result<(), NoMemory>
        requires { Nests self.now.depth (F.pre self.now.inner) (F.post self.now.inner) }
        ensures { OnOk result (reader.new ≡ statement (inner_at self.now.depth) reader.old) }
    {
        if !reader.goes() {
            return Ok(());
        }
        let labels = labels_length(&reader.scope, reader.rest());
        reader.skip(labels);
        self.unlabeled(reader, false)
    }

    /// Reads a statement where no declaration begins (C11 6.8.1).
    #[tactic(auto, unfolding(crate::specs::StatementSteps::statement))]
    fn undeclared_statement(&self, reader: &mut Reader<'_>) -> Result<(), NoMemory>
        requires nests { Nests self.now.depth (F.pre self.now.inner) (F.post self.now.inner) }
        requires none { has_first (begins_declaration reader.old.scope) (rest reader.old) ≡ false }
        ensures { OnOk result (reader.new ≡ statement (inner_at self.now.depth) reader.old) }
    {
        if !reader.goes() {
            return Ok(());
        }
        let labels = labels_length(&reader.scope, reader.rest());
        reader.skip(labels);
        self.unlabeled(reader, labels == 0)
    }

    /// Reads what stands in a block: a statement that begins with a type or a storage word is a declaration.
    #[tactic(auto, unfolding(crate::specs::StatementSteps::item, crate::specs::StatementSteps::clause))]
    pub fn item(&self, reader: &mut Reader<'_>) -> Result<(), NoMemory>
        requires { Nests self.now.depth (F.pre self.now.inner) (F.post self.now.inner) }
        ensures { OnOk result (reader.new ≡ item (inner_at self.now.depth) reader.old) }
    {
        if !reader.goes() {
            return Ok(());
        }
        if reader.has_declaration() {
            return self.declared_statement(reader);
        }
        self.undeclared_statement(reader)
    }
}
