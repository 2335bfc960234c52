ghost use Rattle.std.specs.Prelude.{◌≡◌, ◌+◌, ◌≤◌, ◌<◌, ◌^◌, IfOk, OnOk, drop, length};
ghost use Rattle.std.specs.List.{prefix_len};
ghost use Rattle.cparser.specs.Nests.{Nests};
ghost use Rattle.cparser.specs.OperandSteps.{over_matched, opened, opens_row, is_no_word, closed, all_closed, cast};
ghost use Rattle.cparser.specs.ReadingSteps.{inner_at};
ghost use Rattle.cparser.specs.State.{rest};

use crate::grammar::Grammar;
use crate::reader::{Reader, behind};
use crate::wanted::Wanted;
use cbase::NoMemory;
use cgrammar::{Scope, Terminal, begins_type, matched_length};

impl<'a> Reader<'a> {
    /// Goes over the rest of what stands in brackets, up to the one that closes them.
    #[tactic(auto, unfolding(crate::specs::OperandSteps::over_matched), using(crate::proofs::Fronts::over_found))]
    pub fn over_matched(&mut self) -> Result<(), NoMemory>
        ensures { OnOk result (self.new ≡ over_matched self.old) }
    {
        if !self.goes() {
            return Ok(());
        }
        match matched_length(self.alloc, self.rest(), b')')? {
            Some(count) => self.skip(count),
            None => self.lose(),
        }
        Ok(())
    }

    /// How many brackets around expressions stand there, one behind the other.
    pub fn opened(&self) -> usize
        ensures count { result ≡ opened self.now.scope (rest self.now) }
        ensures inside { result ≤ length (rest self.now) }
    {
        opened(&self.scope, self.rest())
    }
}

/// How many brackets around expressions the row begins with.
fn opened<'a>(scope: &Scope, row: &'a [Terminal<'a>]) -> usize
    ensures count { result ≡ opened scope.now row.now }
    ensures inside { result ≤ length row.now }
{
    let mut count = 0;
    'tokens: while count < row.len() {
        if !opens(scope, behind(row, count)) {
            return count;
        }
        count += 1;
    }
    count
}

/// Whether the row begins with a bracket around an expression: neither a type nor a block stands behind it.
fn opens(scope: &Scope, row: &[Terminal<'_>]) -> bool
    ensures { result ≡ opens_row scope.now row.now }
{
    match row {
        [] | [_] => false,
        [first, second, ..] => {
            first.is_mark(b"(") && (!second.is_mark(b"{") && !begins_type(scope, second))
        }
    }
}

impl<F: Fn(&mut Reader<'_>, u32, Wanted) -> Result<(), NoMemory>> Grammar<F> {
    /// An operand: a cast or a unary expression (C11 6.5.4).
    #[tactic(auto, unfolding(crate::specs::OperandSteps::cast))]
    pub fn cast(&self, reader: &mut Reader<'_>) -> Result<(), NoMemory>
        requires { Nests self.now.depth (F.pre self.now.inner) (F.post self.now.inner) }
        ensures { OnOk result (reader.new ≡ cast (inner_at self.now.depth) reader.old) }
    {
        if !reader.goes() {
            return Ok(());
        }
        let first = reader.at;
        let count = reader.opened();
        reader.skip(count);
        self.plain(reader)?;
        self.all_closed(reader, first, count)
    }

    /// So many brackets, the innermost first. The outermost begins at the token `first`.
    fn all_closed(
        &self,
        reader: &mut Reader<'_>,
        first: usize,
        count: usize,
    ) -> Result<(), NoMemory>
        requires nests { Nests self.now.depth (F.pre self.now.inner) (F.post self.now.inner) }
        requires fits { first + count < 2 ^ 64 }
        ensures { OnOk result (reader.new ≡ all_closed (inner_at self.now.depth) first count reader.old) }
    {
        let mut left = count;
        let mut passed = 0;
        'brackets: while left > 0 {
            left -= 1;
            passed = reader.passed_before(first + left, passed);
            passed = self.closed(reader, first + left, passed)?;
        }
        Ok(())
    }

    /// The rest of an expression in brackets that begin at the token `first`, from behind its first operand on, and the
    /// operators behind it (C11 6.5.1), and how many of the tokens from there on are known to be no words then. `known` of
    /// them are before.
    #[tactic(auto, unfolding(crate::specs::OperandSteps::closed))]
    fn closed(&self, reader: &mut Reader<'_>, first: usize, known: usize) -> Result<usize, NoMemory>
        requires nests { Nests self.now.depth (F.pre self.now.inner) (F.post self.now.inner) }
        requires known { known ≤ prefix_len is_no_word (drop first reader.old.row) }
        ensures is { OnOk result (reader.new ≡ closed (inner_at self.now.depth) first reader.old) }
        ensures passed { IfOk result (λ passed. passed ≤ prefix_len is_no_word (drop first reader.old.row)) }
    {
        reader.whole();
        self.expression_from(reader)?;
        reader.whole();
        reader.mark(b")");
        self.postfixes_passing(reader, first, known)
    }
}
