ghost use Rattle.std.specs.Prelude.{◌≡◌, ◌≤◌, IfOk, OnOk, if◌then◌else◌, length};
ghost use Rattle.cparser.specs.Nests.{Nests};
ghost use Rattle.cparser.specs.ReadingSteps.{inner_at};
ghost use Rattle.cparser.specs.State.{State, rest};
ghost use Rattle.cparser.specs.TypeSteps.{open_size, size_behind, size_turn, sizes_from, all_sizes};

use crate::grammar::Grammar;
use crate::reader::Reader;
use crate::wanted::Wanted;
use cbase::NoMemory;
use cevents::Event;

impl<'a> Reader<'a> {
    /// Goes over the `]` of a size that is left out, where sizes may be.
    fn open_size(&mut self, optional: bool) -> Result<(), NoMemory>
        requires { 1 ≤ length (rest self.old) }
        ensures { OnOk result (self.new ≡ open_size optional self.old) }
    {
        if !optional {
            self.lose();
            return Ok(());
        }
        self.skip(1);
        self.write(Event::OpenSize)
    }
}

impl<F: Fn(&mut Reader<'_>, u32, Wanted) -> Result<(), NoMemory>> Grammar<F> {
    /// Reads a size of an array from behind its `[` on. It may be left out where sizes are optional (C11 6.7.6.2).
    #[tactic(auto, unfolding(crate::specs::TypeSteps::size_behind))]
    fn size_behind(&self, reader: &mut Reader<'_>, optional: bool) -> Result<(), NoMemory>
        requires { Nests self.now.depth (F.pre self.now.inner) (F.post self.now.inner) }
        ensures { OnOk result (reader.new ≡ size_behind (inner_at self.now.depth) optional reader.old) }
    {
        if reader.has_mark(b"]") {
            return reader.open_size(optional);
        }
        self.ask_whole(reader, Wanted::Conditional)?;
        reader.mark(b"]");
        reader.write(Event::Size)
    }

    /// Reads the sizes that stand there.
    fn sizes_from(&self, reader: &mut Reader<'_>, optional: bool) -> Result<(), NoMemory>
        requires { Nests self.now.depth (F.pre self.now.inner) (F.post self.now.inner) }
        ensures { OnOk result (reader.new ≡ sizes_from (inner_at self.now.depth) optional reader.old) }
    {
        let mut left = reader.left();
        'turns: loop {
            if !self.size_turn(reader, optional)? {
                return Ok(());
            }
            if left == 0 {
                reader.lose();
                return Ok(());
            }
            left -= 1;
        }
    }

    /// Reads a size, where one stands there, and tells whether more may follow.
    fn size_turn(&self, reader: &mut Reader<'_>, optional: bool) -> Result<bool, NoMemory>
        requires { Nests self.now.depth (F.pre self.now.inner) (F.post self.now.inner) }
        ensures { IfOk result (λ again. (go : State → State) → size_turn (inner_at self.now.depth) optional go reader.old ≡ (if again then go reader.new else reader.new)) }
    {
        if !reader.goes() {
            return Ok(false);
        }
        if !reader.has_mark(b"[") {
            return Ok(false);
        }
        reader.skip(1);
        self.size_behind(reader, optional)?;
        Ok(true)
    }

    /// Reads sizes of arrays, from none on.
    #[tactic(auto, unfolding(crate::specs::TypeSteps::all_sizes))]
    pub fn all_sizes(&self, reader: &mut Reader<'_>, optional: bool) -> Result<(), NoMemory>
        requires { Nests self.now.depth (F.pre self.now.inner) (F.post self.now.inner) }
        ensures { OnOk result (reader.new ≡ all_sizes (inner_at self.now.depth) optional reader.old) }
    {
        reader.write(Event::NoSizes)?;
        self.sizes_from(reader, optional)
    }
}
