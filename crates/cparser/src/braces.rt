ghost use Rattle.std.specs.Prelude.{◌≡◌, IfOk, OnOk, if◌then◌else◌};
ghost use Rattle.cparser.specs.BraceSteps.{member_of, brace_turn};
ghost use Rattle.cparser.specs.Nests.{Nests};
ghost use Rattle.cparser.specs.ReadingSteps.{inner_at};
ghost use Rattle.cparser.specs.State.{State};
ghost use Rattle.cparser.specs.Steps.{until_brace};

use crate::braced::Braced;
use crate::grammar::Grammar;
use crate::reader::Reader;
use crate::wanted::Wanted;
use cbase::NoMemory;

impl<F: Fn(&mut Reader<'_>, u32, Wanted) -> Result<(), NoMemory>> Grammar<F> {
    /// Reads what stands in braces up to the `}`, and goes over it.
    pub fn until_brace(&self, reader: &mut Reader<'_>, braced: Braced) -> Result<(), NoMemory>
        requires { Nests self.now.depth (F.pre self.now.inner) (F.post self.now.inner) }
        ensures { OnOk result (reader.new ≡ until_brace (member_of (inner_at self.now.depth) braced) reader.old) }
    {
        let mut left = reader.left();
        'turns: loop {
            if !self.brace_turn(reader, braced)? {
                return Ok(());
            }
            if left == 0 {
                reader.lose();
                return Ok(());
            }
            left -= 1;
        }
    }

    /// Reads one part, or the `}`, and tells whether more may follow.
    fn brace_turn(&self, reader: &mut Reader<'_>, braced: Braced) -> Result<bool, NoMemory>
        requires { Nests self.now.depth (F.pre self.now.inner) (F.post self.now.inner) }
        ensures { IfOk result (λ again. (go : State → State) → brace_turn (inner_at self.now.depth) braced go reader.old ≡ (if again then go reader.new else reader.new)) }
    {
        if !reader.goes() {
            return Ok(false);
        }
        if reader.has_mark(b"}") {
            reader.skip(1);
            return Ok(false);
        }
        self.member(reader, braced)?;
        Ok(true)
    }

    /// Reads one part.
    fn member(&self, reader: &mut Reader<'_>, braced: Braced) -> Result<(), NoMemory>
        requires { Nests self.now.depth (F.pre self.now.inner) (F.post self.now.inner) }
        ensures { OnOk result (reader.new ≡ member_of (inner_at self.now.depth) braced reader.old) }
    {
        match braced {
            Braced::Fields => self.fields(reader),
            Braced::BlockItem => self.block_item(reader),
        }
    }
}
