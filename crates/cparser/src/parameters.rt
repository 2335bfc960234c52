ghost use Rattle.std.specs.Prelude.{◌≡◌, OnOk, ◌≤◌, IsTrue, length};
ghost use Rattle.cgrammar.specs.ReadDeclarations.{is_void_alone};
ghost use Rattle.cparser.specs.Nests.{Nests};
ghost use Rattle.cparser.specs.ReadingSteps.{inner_at};
ghost use Rattle.cparser.specs.State.{rest};
ghost use Rattle.cparser.specs.DeclarationSteps.{parameter_named, parameter_behind, parameter, parameters_inside, parameters, unnamed_parameter, known_parameter, parameters_listed};

use crate::grammar::Grammar;
use crate::listed::Listed;
use crate::reader::Reader;
use crate::wanted::Wanted;
use cbase::NoMemory;
use cevents::Event;

impl<'a> Reader<'a> {
    /// Whether the word `void` stands there alone before a `)`.
    pub fn is_void_alone(&self) -> bool
        ensures is { result ≡ is_void_alone (rest self.now) }
        ensures more { IsTrue result → 2 ≤ length (rest self.now) }
    {
        match self.rest() {
            [] | [_] => false,
            [first, second, ..] => first.is_word(b"void") && second.is_mark(b")"),
        }
    }
}

impl<F: Fn(&mut Reader<'_>, u32, Wanted) -> Result<(), NoMemory>> Grammar<F> {
    /// Reads a parameter from behind its name on.
    fn known_parameter(&self, reader: &mut Reader<'_>, at: u32, stars: u32) -> Result<(), NoMemory>
        requires { Nests self.now.depth (F.pre self.now.inner) (F.post self.now.inner) }
        ensures { OnOk result (reader.new ≡ known_parameter (inner_at self.now.depth) at stars reader.old) }
    {
        self.all_sizes(reader, true)?;
        reader.write(Event::Parameter {
            name: Some(at),
            stars,
        })?;
        reader.declare(at, false)
    }

    /// Reads a parameter without a name.
    fn unnamed_parameter(&self, reader: &mut Reader<'_>, stars: u32) -> Result<(), NoMemory>
        requires { Nests self.now.depth (F.pre self.now.inner) (F.post self.now.inner) }
        ensures { OnOk result (reader.new ≡ unnamed_parameter (inner_at self.now.depth) stars reader.old) }
    {
        self.all_sizes(reader, true)?;
        reader.write(Event::Parameter { name: None, stars })
    }

    /// Reads a parameter from behind its stars on.
    fn parameter_named(&self, reader: &mut Reader<'_>, stars: u32) -> Result<(), NoMemory>
        requires { Nests self.now.depth (F.pre self.now.inner) (F.post self.now.inner) }
        ensures { OnOk result (reader.new ≡ parameter_named (inner_at self.now.depth) stars reader.old) }
    {
        if reader.has_name() {
            let at = reader.here()?;
            reader.skip(1);
            return self.known_parameter(reader, at, stars);
        }
        self.unnamed_parameter(reader, stars)
    }

    /// Reads a parameter from behind its type on (C11 6.7.6.3).
    #[tactic(auto, unfolding(crate::specs::DeclarationSteps::parameter_behind))]
    fn parameter_behind(&self, reader: &mut Reader<'_>) -> Result<(), NoMemory>
        requires { Nests self.now.depth (F.pre self.now.inner) (F.post self.now.inner) }
        ensures { OnOk result (reader.new ≡ parameter_behind (inner_at self.now.depth) reader.old) }
    {
        if !reader.goes() {
            return Ok(());
        }
        let stars = reader.stars()?;
        reader.skip(stars as usize);
        self.parameter_named(reader, stars)
    }

    /// Reads a parameter (C11 6.7.6.3).
    #[tactic(auto, unfolding(crate::specs::DeclarationSteps::parameter))]
    pub fn parameter(&self, reader: &mut Reader<'_>) -> Result<(), NoMemory>
        requires { Nests self.now.depth (F.pre self.now.inner) (F.post self.now.inner) }
        ensures { OnOk result (reader.new ≡ parameter (inner_at self.now.depth) reader.old) }
    {
        let _storage = self.specifiers(reader)?;
        self.parameter_behind(reader)
    }

    /// Reads parameters, of which there is one, and the `)`.
    fn parameters_listed(&self, reader: &mut Reader<'_>) -> Result<(), NoMemory>
        requires { Nests self.now.depth (F.pre self.now.inner) (F.post self.now.inner) }
        ensures { OnOk result (reader.new ≡ parameters_listed (inner_at self.now.depth) reader.old) }
    {
        self.parts(reader, Listed::Parameter)?;
        reader.mark(b")");
        Ok(())
    }

    /// Reads the parameters of a function and the `)`.
    #[tactic(auto, unfolding(crate::specs::DeclarationSteps::parameters_inside))]
    fn parameters_inside(&self, reader: &mut Reader<'_>) -> Result<(), NoMemory>
        requires { Nests self.now.depth (F.pre self.now.inner) (F.post self.now.inner) }
        ensures { OnOk result (reader.new ≡ parameters_inside (inner_at self.now.depth) reader.old) }
    {
        if !reader.goes() {
            return Ok(());
        }
        if reader.has_mark(b")") {
            reader.skip(1);
            return Ok(());
        }
        if reader.is_void_alone() {
            reader.skip(2);
            return Ok(());
        }
        self.parameters_listed(reader)
    }

    /// Reads the parameters of a function from behind the `(` on, and the `)`. They have a scope of their own, in which
    /// what stands behind them lies.
    #[tactic(auto, unfolding(crate::specs::DeclarationSteps::parameters))]
    pub fn parameters(&self, reader: &mut Reader<'_>) -> Result<(), NoMemory>
        requires { Nests self.now.depth (F.pre self.now.inner) (F.post self.now.inner) }
        ensures { OnOk result (reader.new ≡ parameters (inner_at self.now.depth) reader.old) }
    {
        reader.write(Event::NoParameters)?;
        reader.enter()?;
        self.parameters_inside(reader)
    }
}
