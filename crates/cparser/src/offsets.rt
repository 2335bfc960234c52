ghost use Rattle.std.specs.Prelude.{◌≡◌, IfOk, OnOk, if◌then◌else◌};
ghost use Rattle.cparser.specs.Nests.{Nests};
ghost use Rattle.cparser.specs.ReadingSteps.{inner_at};
ghost use Rattle.cparser.specs.State.{State};
ghost use Rattle.cparser.specs.OperandSteps.{path_member, path_index, path_turn, whole_path, offset_path, offset_of};

use crate::grammar::Grammar;
use crate::reader::Reader;
use crate::wanted::Wanted;
use cbase::NoMemory;
use cevents::Event;

impl<'a> Reader<'a> {
    /// The name of a member, behind a `.` (C11 7.19).
    #[tactic(auto, unfolding(crate::specs::OperandSteps::path_member))]
    fn path_member(&mut self) -> Result<(), NoMemory>
        ensures { OnOk result (self.new ≡ path_member self.old) }
    {
        if !self.has_name() {
            self.lose();
            return Ok(());
        }
        let name = self.here()?;
        self.skip(1);
        self.write(Event::PathMember { name })
    }
}

impl<F: Fn(&mut Reader<'_>, u32, Wanted) -> Result<(), NoMemory>> Grammar<F> {
    /// The index of an item behind a `[`, up to the `]` (C11 7.19).
    #[tactic(auto, unfolding(crate::specs::OperandSteps::path_index))]
    fn path_index(&self, reader: &mut Reader<'_>) -> Result<(), NoMemory>
        requires { Nests self.now.depth (F.pre self.now.inner) (F.post self.now.inner) }
        ensures { OnOk result (reader.new ≡ path_index (inner_at self.now.depth) reader.old) }
    {
        self.ask_whole(reader, Wanted::Conditional)?;
        reader.mark(b"]");
        reader.write(Event::PathIndex)
    }

    /// One member or item, and whether one more may follow it.
    fn path_turn(&self, reader: &mut Reader<'_>) -> Result<bool, NoMemory>
        requires { Nests self.now.depth (F.pre self.now.inner) (F.post self.now.inner) }
        ensures { IfOk result (λ again. (go : State → State) → path_turn (inner_at self.now.depth) go reader.old ≡ (if again then go reader.new else reader.new)) }
    {
        if !reader.goes() {
            return Ok(false);
        }
        if reader.has_mark(b".") {
            reader.skip(1);
            reader.path_member()?;
            return Ok(true);
        }
        if reader.has_mark(b"[") {
            reader.skip(1);
            self.path_index(reader)?;
            return Ok(true);
        }
        Ok(false)
    }

    /// Members and items behind the first member of `__builtin_offsetof` (C11 7.19).
    fn path(&self, reader: &mut Reader<'_>) -> Result<(), NoMemory>
        requires { Nests self.now.depth (F.pre self.now.inner) (F.post self.now.inner) }
        ensures { OnOk result (reader.new ≡ whole_path (inner_at self.now.depth) reader.old) }
    {
        let mut left = reader.left();
        'turns: loop {
            if !self.path_turn(reader)? {
                return Ok(());
            }
            if left == 0 {
                reader.lose();
                return Ok(());
            }
            left -= 1;
        }
    }

    /// `__builtin_offsetof` from behind its `,` on (C11 7.19).
    #[tactic(auto, unfolding(crate::specs::OperandSteps::offset_path))]
    fn offset_path(&self, reader: &mut Reader<'_>, at: u32) -> Result<(), NoMemory>
        requires { Nests self.now.depth (F.pre self.now.inner) (F.post self.now.inner) }
        ensures { OnOk result (reader.new ≡ offset_path (inner_at self.now.depth) at reader.old) }
    {
        if !reader.goes() {
            return Ok(());
        }
        if !reader.has_name() {
            reader.lose();
            return Ok(());
        }
        let name = reader.here()?;
        reader.skip(1);
        reader.write(Event::Path { name })?;
        self.path(reader)?;
        reader.mark(b")");
        reader.make(Event::OffsetOf { at })?;
        self.postfixes_from(reader, at as usize)
    }

    /// `__builtin_offsetof` behind its word (C11 7.19).
    #[tactic(auto, unfolding(crate::specs::OperandSteps::offset_of))]
    pub fn offset_of(&self, reader: &mut Reader<'_>, at: u32) -> Result<(), NoMemory>
        requires { Nests self.now.depth (F.pre self.now.inner) (F.post self.now.inner) }
        ensures { OnOk result (reader.new ≡ offset_of (inner_at self.now.depth) at reader.old) }
    {
        reader.mark(b"(");
        self.type_name(reader)?;
        reader.mark(b",");
        self.offset_path(reader, at)
    }
}
