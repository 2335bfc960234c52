ghost use Rattle.std.specs.Prelude.{◌≡◌, ◌≤◌, IfOk, IsTrue, OnOk, if◌then◌else◌, length};
ghost use Rattle.cgrammar.specs.ReadTypes.{closes_braces};
ghost use Rattle.cparser.specs.ListSteps.{part_of, part_turn, closes_of, more_of};
ghost use Rattle.cparser.specs.Nests.{Nests};
ghost use Rattle.cparser.specs.ReadingSteps.{inner_at};
ghost use Rattle.cparser.specs.State.{State, rest};
ghost use Rattle.cparser.specs.Steps.{all_parts};

use crate::grammar::Grammar;
use crate::listed::Listed;
use crate::reader::Reader;
use crate::wanted::Wanted;
use cbase::NoMemory;
use cgrammar::Terminal;

impl<'a> Reader<'a> {
    /// Whether a comma stands there, and one more part of the list behind it.
    pub fn has_more(&self, listed: Listed) -> bool
        ensures is { result ≡ more_of listed (rest self.now) }
        ensures more { IsTrue result → 1 ≤ length (rest self.now) }
    {
        match self.rest() {
            [] => false,
            [first, behind @ ..] => first.is_mark(b",") && !closes(listed, behind),
        }
    }
}

/// Whether the list is closed behind a comma that the row stands behind.
fn closes(listed: Listed, row: &[Terminal<'_>]) -> bool
    ensures { result ≡ closes_of listed row.now }
{
    match listed {
        Listed::Argument => false,
        Listed::FieldName => false,
        Listed::Enumerator => closes_braces(row),
        Listed::Parameter => false,
        Listed::InitPart => closes_braces(row),
    }
}

/// Whether the row begins with the `}` of a list in braces.
fn closes_braces(row: &[Terminal<'_>]) -> bool
    ensures { result ≡ closes_braces row.now }
{
    match row {
        [] => false,
        [first, ..] => first.is_mark(b"}"),
    }
}

impl<F: Fn(&mut Reader<'_>, u32, Wanted) -> Result<(), NoMemory>> Grammar<F> {
    /// The parts of a list, each a part more of what is written so far.
    pub fn parts(&self, reader: &mut Reader<'_>, listed: Listed) -> Result<(), NoMemory>
        requires { Nests self.now.depth (F.pre self.now.inner) (F.post self.now.inner) }
        ensures { OnOk result (reader.new ≡ all_parts (closes_of listed) (part_of (inner_at self.now.depth) listed) reader.old) }
    {
        let mut left = reader.left();
        'turns: loop {
            if !self.part_turn(reader, listed)? {
                return Ok(());
            }
            if left == 0 {
                reader.lose();
                return Ok(());
            }
            left -= 1;
        }
    }

    /// One part, with the comma behind it, and whether one more part follows.
    fn part_turn(&self, reader: &mut Reader<'_>, listed: Listed) -> Result<bool, NoMemory>
        requires { Nests self.now.depth (F.pre self.now.inner) (F.post self.now.inner) }
        ensures { IfOk result (λ again. (go : State → State) → part_turn (inner_at self.now.depth) listed go reader.old ≡ (if again then go reader.new else reader.new)) }
    {
        self.part(reader, listed)?;
        if !reader.goes() {
            return Ok(false);
        }
        if !reader.has_more(listed) {
            return Ok(false);
        }
        reader.skip(1);
        Ok(true)
    }

    /// A part of a list.
    fn part(&self, reader: &mut Reader<'_>, listed: Listed) -> Result<(), NoMemory>
        requires { Nests self.now.depth (F.pre self.now.inner) (F.post self.now.inner) }
        ensures { OnOk result (reader.new ≡ part_of (inner_at self.now.depth) listed reader.old) }
    {
        match listed {
            Listed::Argument => self.argument(reader),
            Listed::FieldName => self.field_name(reader),
            Listed::Enumerator => self.enumerator(reader),
            Listed::Parameter => self.parameter(reader),
            Listed::InitPart => self.init_part(reader),
        }
    }
}
