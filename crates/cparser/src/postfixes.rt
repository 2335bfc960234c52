ghost use Rattle.std.specs.Prelude.{◌≡◌, ◌≤◌, IfOk, IsTrue, OnOk, drop, if◌then◌else◌, length};
ghost use Rattle.std.specs.List.{prefix_len};
ghost use Rattle.cparser.specs.Nests.{Nests};
ghost use Rattle.cparser.specs.ReadingSteps.{inner_at};
ghost use Rattle.cparser.specs.State.{State, rest};
ghost use Rattle.cgrammar.specs.ReadOperands.{goes_on};
ghost use Rattle.cparser.specs.OperandSteps.{as_operand, index_behind, argument, arguments, call_behind, is_no_word, member_behind, postfix_with, postfix_at, postfix_turn, all_postfixes, postfixes_from};

use crate::grammar::Grammar;
use crate::listed::Listed;
use crate::numbers::number;
use crate::point::Point;
use crate::reader::Reader;
use crate::status::Status;
use crate::wanted::Wanted;
use cbase::NoMemory;
use cevents::Event;
use cgrammar::PostfixStart;

impl<'a> Reader<'a> {
    /// What is read is an operand: a unary expression, or a cast.
    #[tactic(auto, unfolding(crate::specs::OperandSteps::as_operand))]
    pub fn as_operand(&mut self, unary: bool)
        ensures { self.new ≡ as_operand unary self.old }
    {
        match self.status {
            Status::Nothing => {}
            Status::Going | Status::Stopped => self.unary = unary,
        }
    }

    /// A member of what is read, by its name that stands there (C11 6.5.2.3).
    #[tactic(auto, unfolding(crate::specs::OperandSteps::member_behind))]
    fn member_behind(&mut self, through: bool, point: Point, at: u32) -> Result<(), NoMemory>
        ensures { OnOk result (self.new ≡ member_behind through point at self.old) }
    {
        if !self.has_name() {
            self.go_back(point);
            return Ok(());
        }
        let name = self.here()?;
        self.skip(1);
        self.make(Event::Member { through, at, name })
    }
}

impl<F: Fn(&mut Reader<'_>, u32, Wanted) -> Result<(), NoMemory>> Grammar<F> {
    /// What stands behind a `[`, up to the `]` (C11 6.5.2.1).
    #[tactic(auto, unfolding(crate::specs::OperandSteps::index_behind))]
    fn index_behind(&self, reader: &mut Reader<'_>, point: Point, at: u32) -> Result<(), NoMemory>
        requires { Nests self.now.depth (F.pre self.now.inner) (F.post self.now.inner) }
        ensures { OnOk result (reader.new ≡ index_behind (inner_at self.now.depth) point at reader.old) }
    {
        self.ask(reader, Wanted::Expression)?;
        reader.back_unless_going(point);
        reader.mark_or_back(b"]", point);
        reader.make(Event::Index { at })
    }

    /// An argument of a call (C11 6.5.2.2).
    #[tactic(auto, unfolding(crate::specs::OperandSteps::argument))]
    pub fn argument(&self, reader: &mut Reader<'_>) -> Result<(), NoMemory>
        requires { Nests self.now.depth (F.pre self.now.inner) (F.post self.now.inner) }
        ensures { OnOk result (reader.new ≡ argument (inner_at self.now.depth) reader.old) }
    {
        self.ask_whole(reader, Wanted::Assignment)?;
        reader.write(Event::Argument)
    }

    /// The arguments of a call (C11 6.5.2.2).
    #[tactic(auto, unfolding(crate::specs::OperandSteps::arguments))]
    fn arguments(&self, reader: &mut Reader<'_>) -> Result<(), NoMemory>
        requires { Nests self.now.depth (F.pre self.now.inner) (F.post self.now.inner) }
        ensures { OnOk result (reader.new ≡ arguments (inner_at self.now.depth) reader.old) }
    {
        reader.write(Event::NoArguments)?;
        self.parts(reader, Listed::Argument)
    }

    /// What stands behind the `(` of a call, up to the `)` (C11 6.5.2.2).
    #[tactic(auto, unfolding(crate::specs::OperandSteps::call_behind))]
    fn call_behind(&self, reader: &mut Reader<'_>, point: Point, at: u32) -> Result<(), NoMemory>
        requires { Nests self.now.depth (F.pre self.now.inner) (F.post self.now.inner) }
        ensures { OnOk result (reader.new ≡ call_behind (inner_at self.now.depth) point at reader.old) }
    {
        if reader.has_mark(b")") {
            reader.skip(1);
            reader.write(Event::NoArguments)?;
            return reader.make(Event::Call { at });
        }
        if reader.has_typedef() {
            reader.go_back(point);
            return Ok(());
        }
        self.arguments(reader)?;
        reader.back_unless_going(point);
        reader.mark_or_back(b")", point);
        reader.make(Event::Call { at })
    }

    /// One operator behind an operand that begins at the token `first`. Of the tokens from there on `passed` are known to
    /// be no words.
    fn postfix_with(
        &self,
        reader: &mut Reader<'_>,
        first: usize,
        passed: usize,
        start: PostfixStart,
    ) -> Result<(), NoMemory>
        requires nests { Nests self.now.depth (F.pre self.now.inner) (F.post self.now.inner) }
        requires there { IsTrue (goes_on start) → 1 ≤ length (rest reader.old) }
        requires passed { passed ≤ prefix_len is_no_word (drop first reader.old.row) }
        ensures { OnOk result (reader.new ≡ postfix_with (inner_at self.now.depth) first reader.old start) }
    {
        let point = reader.point();
        let at = reader.here()?;
        match start {
            PostfixStart::Index => {
                reader.skip(1);
                self.index_behind(reader, point, at)
            }
            PostfixStart::Call => {
                let place = number(reader.call_place(first, passed))?;
                reader.skip(1);
                self.call_behind(reader, point, place)
            }
            PostfixStart::Member(through) => {
                reader.skip(1);
                reader.member_behind(through, point, at)
            }
            PostfixStart::Count(up) => {
                reader.skip(1);
                reader.make(Event::Count {
                    up,
                    after: true,
                    at,
                })
            }
            PostfixStart::Other => Ok(()),
        }
    }

    /// The operator that stands behind an operand that begins at the token `first`. Of the tokens from there on `passed`
    /// are known to be no words.
    #[tactic(auto, unfolding(crate::specs::OperandSteps::postfix_at))]
    fn postfix_at(
        &self,
        reader: &mut Reader<'_>,
        first: usize,
        passed: usize,
    ) -> Result<(), NoMemory>
        requires nests { Nests self.now.depth (F.pre self.now.inner) (F.post self.now.inner) }
        requires passed { passed ≤ prefix_len is_no_word (drop first reader.old.row) }
        ensures { OnOk result (reader.new ≡ postfix_at (inner_at self.now.depth) first reader.old) }
    {
        if !reader.fits(self.depth) {
            reader.stop();
            return Ok(());
        }
        let start = reader.postfix();
        self.postfix_with(reader, first, passed, start)
    }

    /// One operator behind an operand that begins at the token `first`, and whether one more may follow it. Of the tokens
    /// from there on `passed` are known to be no words.
    fn postfix(
        &self,
        reader: &mut Reader<'_>,
        first: usize,
        passed: usize,
    ) -> Result<bool, NoMemory>
        requires nests { Nests self.now.depth (F.pre self.now.inner) (F.post self.now.inner) }
        requires passed { passed ≤ prefix_len is_no_word (drop first reader.old.row) }
        ensures { IfOk result (λ again. (go : State → State) → postfix_turn (inner_at self.now.depth) first go reader.old ≡ (if again then go reader.new else reader.new)) }
    {
        if !reader.goes() {
            return Ok(false);
        }
        if !goes_on(reader.postfix()) {
            return Ok(false);
        }
        self.postfix_at(reader, first, passed)?;
        Ok(true)
    }

    /// Operators behind an operand that begins at the token `first`, each to the left (C11 6.5.2), and how many of the
    /// tokens from there on are known to be no words then. `known` of them are before.
    fn postfixes(
        &self,
        reader: &mut Reader<'_>,
        first: usize,
        known: usize,
    ) -> Result<usize, NoMemory>
        requires nests { Nests self.now.depth (F.pre self.now.inner) (F.post self.now.inner) }
        requires known { known ≤ prefix_len is_no_word (drop first reader.old.row) }
        ensures is { OnOk result (reader.new ≡ all_postfixes (inner_at self.now.depth) first reader.old) }
        ensures passed { IfOk result (λ passed. passed ≤ prefix_len is_no_word (drop first reader.old.row)) }
    {
        let mut left = reader.left();
        let mut passed = known;
        'turns: loop {
            passed = reader.passed_on(first, passed);
            if !self.postfix(reader, first, passed)? {
                return Ok(passed);
            }
            if left == 0 {
                return Ok(passed);
            }
            left -= 1;
        }
    }

    /// An operand that begins at the token `first`, from behind its primary expression on (C11 6.5.2), and how many of the
    /// tokens from there on are known to be no words then. `known` of them are before.
    #[tactic(auto, unfolding(crate::specs::OperandSteps::postfixes_from))]
    pub fn postfixes_passing(
        &self,
        reader: &mut Reader<'_>,
        first: usize,
        known: usize,
    ) -> Result<usize, NoMemory>
        requires nests { Nests self.now.depth (F.pre self.now.inner) (F.post self.now.inner) }
        requires known { known ≤ prefix_len is_no_word (drop first reader.old.row) }
        ensures is { OnOk result (reader.new ≡ postfixes_from (inner_at self.now.depth) first reader.old) }
        ensures passed { IfOk result (λ passed. passed ≤ prefix_len is_no_word (drop first reader.old.row)) }
    {
        if !reader.goes() {
            return Ok(known);
        }
        let passed = self.postfixes(reader, first, known)?;
        reader.as_operand(true);
        Ok(passed)
    }

    /// An operand that begins at the token `first`, from behind its primary expression on (C11 6.5.2).
    pub fn postfixes_from(&self, reader: &mut Reader<'_>, first: usize) -> Result<(), NoMemory>
        requires { Nests self.now.depth (F.pre self.now.inner) (F.post self.now.inner) }
        ensures { OnOk result (reader.new ≡ postfixes_from (inner_at self.now.depth) first reader.old) }
    {
        self.postfixes_passing(reader, first, 0)?;
        Ok(())
    }
}

/// Whether an operator stands there.
fn goes_on(start: PostfixStart) -> bool
    ensures { result ≡ goes_on start }
{
    !matches!(start, PostfixStart::Other)
}
