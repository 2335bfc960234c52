ghost use Rattle.std.specs.Prelude.{◌≡◌, IfOk, OnOk, if◌then◌else◌};
ghost use Rattle.cparser.specs.Nests.{Nests};
ghost use Rattle.cparser.specs.ReadingSteps.{inner_at};
ghost use Rattle.cparser.specs.State.{State};
ghost use Rattle.cparser.specs.DeclarationSteps.{declarator_turn, object_initialized, object_behind, function_behind, declarator_behind, declarator_named, declarator, declarators};

use crate::grammar::Grammar;
use crate::reader::Reader;
use crate::wanted::Wanted;
use cbase::NoMemory;
use cevents::Event;

impl<F: Fn(&mut Reader<'_>, u32, Wanted) -> Result<(), NoMemory>> Grammar<F> {
    /// Reads an object from behind its `=` on. Its name is in scope before that.
    fn object_initialized(
        &self,
        reader: &mut Reader<'_>,
        typedef: bool,
        at: u32,
        stars: u32,
    ) -> Result<(), NoMemory>
        requires { Nests self.now.depth (F.pre self.now.inner) (F.post self.now.inner) }
        ensures { OnOk result (reader.new ≡ object_initialized (inner_at self.now.depth) typedef at stars reader.old) }
    {
        reader.declare(at, typedef)?;
        self.ask_whole(reader, Wanted::Initializer)?;
        reader.write(Event::InitializedObject { name: at, stars })
    }

    /// Reads what stands behind the sizes of an object: its initialiser, or nothing.
    #[tactic(auto, unfolding(crate::specs::DeclarationSteps::object_behind))]
    fn object_behind(
        &self,
        reader: &mut Reader<'_>,
        typedef: bool,
        at: u32,
        stars: u32,
    ) -> Result<(), NoMemory>
        requires { Nests self.now.depth (F.pre self.now.inner) (F.post self.now.inner) }
        ensures { OnOk result (reader.new ≡ object_behind (inner_at self.now.depth) typedef at stars reader.old) }
    {
        if !reader.goes() {
            return Ok(());
        }
        if reader.has_mark(b"=") {
            reader.skip(1);
            return self.object_initialized(reader, typedef, at, stars);
        }
        reader.write(Event::Object { name: at, stars })?;
        reader.declare(at, typedef)
    }

    /// Reads a function from behind its `(` on (C11 6.7.6.3).
    fn function_behind(
        &self,
        reader: &mut Reader<'_>,
        typedef: bool,
        at: u32,
        stars: u32,
    ) -> Result<(), NoMemory>
        requires { Nests self.now.depth (F.pre self.now.inner) (F.post self.now.inner) }
        ensures { OnOk result (reader.new ≡ function_behind (inner_at self.now.depth) typedef at stars reader.old) }
    {
        self.parameters(reader)?;
        reader.leave();
        reader.write(Event::Function { name: at, stars })?;
        reader.declare(at, typedef)
    }

    /// Reads a declarator from behind its name on: a function, or an object (C11 6.7.6).
    #[tactic(auto, unfolding(crate::specs::DeclarationSteps::declarator_behind))]
    fn declarator_behind(
        &self,
        reader: &mut Reader<'_>,
        typedef: bool,
        at: u32,
        stars: u32,
    ) -> Result<(), NoMemory>
        requires { Nests self.now.depth (F.pre self.now.inner) (F.post self.now.inner) }
        ensures { OnOk result (reader.new ≡ declarator_behind (inner_at self.now.depth) typedef at stars reader.old) }
    {
        if reader.has_mark(b"(") {
            reader.skip(1);
            return self.function_behind(reader, typedef, at, stars);
        }
        self.all_sizes(reader, true)?;
        self.object_behind(reader, typedef, at, stars)
    }

    /// Reads a declarator from its name on.
    fn declarator_named(
        &self,
        reader: &mut Reader<'_>,
        typedef: bool,
        stars: u32,
    ) -> Result<(), NoMemory>
        requires { Nests self.now.depth (F.pre self.now.inner) (F.post self.now.inner) }
        ensures { OnOk result (reader.new ≡ declarator_named (inner_at self.now.depth) typedef stars reader.old) }
    {
        if !reader.has_name() {
            reader.lose();
            return Ok(());
        }
        let at = reader.here()?;
        reader.skip(1);
        self.declarator_behind(reader, typedef, at, stars)
    }

    /// Reads a declarator (C11 6.7.6).
    #[tactic(auto, unfolding(crate::specs::DeclarationSteps::declarator))]
    pub fn declarator(&self, reader: &mut Reader<'_>, typedef: bool) -> Result<(), NoMemory>
        requires { Nests self.now.depth (F.pre self.now.inner) (F.post self.now.inner) }
        ensures { OnOk result (reader.new ≡ declarator (inner_at self.now.depth) typedef reader.old) }
    {
        if !reader.goes() {
            return Ok(());
        }
        let stars = reader.stars()?;
        reader.skip(stars as usize);
        self.declarator_named(reader, typedef, stars)
    }

    /// Reads the declarators of a declaration (C11 6.7).
    #[tactic(auto, unfolding(crate::specs::DeclarationSteps::declarators))]
    pub fn declarators(&self, reader: &mut Reader<'_>, typedef: bool) -> Result<(), NoMemory>
        requires { Nests self.now.depth (F.pre self.now.inner) (F.post self.now.inner) }
        ensures { OnOk result (reader.new ≡ declarators (inner_at self.now.depth) typedef reader.old) }
    {
        let mut left = reader.left();
        'turns: loop {
            if !self.declarator_turn(reader, typedef)? {
                return Ok(());
            }
            if left == 0 {
                reader.lose();
                return Ok(());
            }
            left -= 1;
        }
    }

    /// Reads a declarator with the comma behind it, and tells whether one more follows.
    fn declarator_turn(&self, reader: &mut Reader<'_>, typedef: bool) -> Result<bool, NoMemory>
        requires { Nests self.now.depth (F.pre self.now.inner) (F.post self.now.inner) }
        ensures { IfOk result (λ again. (go : State → State) → declarator_turn (inner_at self.now.depth) typedef go reader.old ≡ (if again then go reader.new else reader.new)) }
    {
        self.declarator(reader, typedef)?;
        if !reader.goes() {
            return Ok(false);
        }
        if !reader.has_mark(b",") {
            return Ok(false);
        }
        reader.skip(1);
        Ok(true)
    }
}
