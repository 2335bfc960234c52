ghost use Rattle.std.specs.Prelude.{◌≡◌, OnOk};
ghost use Rattle.cparser.specs.Nests.{Nests};
ghost use Rattle.cparser.specs.ReadingSteps.{inner_at};
ghost use Rattle.cparser.specs.TypeSteps.{padding, bit_field, bits_behind, named_field, field_name, field_names, fields, all_fields};

use crate::braced::Braced;
use crate::grammar::Grammar;
use crate::listed::Listed;
use crate::reader::Reader;
use crate::wanted::Wanted;
use cbase::NoMemory;
use cevents::Event;

impl<F: Fn(&mut Reader<'_>, u32, Wanted) -> Result<(), NoMemory>> Grammar<F> {
    /// Reads the bits of a field with a name, from behind its `:` on.
    fn bit_field(&self, reader: &mut Reader<'_>, at: u32, stars: u32) -> Result<(), NoMemory>
        requires { Nests self.now.depth (F.pre self.now.inner) (F.post self.now.inner) }
        ensures { OnOk result (reader.new ≡ bit_field (inner_at self.now.depth) at stars reader.old) }
    {
        self.ask_whole(reader, Wanted::Conditional)?;
        reader.write(Event::BitField { name: at, stars })
    }

    /// Reads what stands behind the sizes of a field: the bits that it takes, or nothing (C11 6.7.2.1).
    #[tactic(auto, unfolding(crate::specs::TypeSteps::bits_behind))]
    fn bits_behind(&self, reader: &mut Reader<'_>, at: u32, stars: u32) -> Result<(), NoMemory>
        requires { Nests self.now.depth (F.pre self.now.inner) (F.post self.now.inner) }
        ensures { OnOk result (reader.new ≡ bits_behind (inner_at self.now.depth) at stars reader.old) }
    {
        if !reader.goes() {
            return Ok(());
        }
        if reader.has_mark(b":") {
            reader.skip(1);
            return self.bit_field(reader, at, stars);
        }
        reader.write(Event::Field { name: at, stars })
    }

    /// Reads a field from its name on.
    fn named_field(&self, reader: &mut Reader<'_>, stars: u32) -> Result<(), NoMemory>
        requires { Nests self.now.depth (F.pre self.now.inner) (F.post self.now.inner) }
        ensures { OnOk result (reader.new ≡ named_field (inner_at self.now.depth) stars reader.old) }
    {
        if !reader.has_name() {
            reader.lose();
            return Ok(());
        }
        let at = reader.here()?;
        reader.skip(1);
        self.all_sizes(reader, false)?;
        self.bits_behind(reader, at, stars)
    }

    /// Reads a field without a name, from behind its `:` on.
    fn padding(&self, reader: &mut Reader<'_>, at: u32) -> Result<(), NoMemory>
        requires { Nests self.now.depth (F.pre self.now.inner) (F.post self.now.inner) }
        ensures { OnOk result (reader.new ≡ padding (inner_at self.now.depth) at reader.old) }
    {
        self.ask_whole(reader, Wanted::Conditional)?;
        reader.write(Event::Padding { colon: at })
    }

    /// Reads a field, with the bits that it takes (C11 6.7.2.1).
    #[tactic(auto, unfolding(crate::specs::TypeSteps::field_name))]
    pub fn field_name(&self, reader: &mut Reader<'_>) -> Result<(), NoMemory>
        requires { Nests self.now.depth (F.pre self.now.inner) (F.post self.now.inner) }
        ensures { OnOk result (reader.new ≡ field_name (inner_at self.now.depth) reader.old) }
    {
        if !reader.goes() {
            return Ok(());
        }
        if reader.has_mark(b":") {
            let at = reader.here()?;
            reader.skip(1);
            return self.padding(reader, at);
        }
        let stars = reader.stars()?;
        reader.skip(stars as usize);
        self.named_field(reader, stars)
    }

    /// Reads the fields of one type.
    #[tactic(auto, unfolding(crate::specs::TypeSteps::field_names))]
    fn field_names(&self, reader: &mut Reader<'_>) -> Result<(), NoMemory>
        requires { Nests self.now.depth (F.pre self.now.inner) (F.post self.now.inner) }
        ensures { OnOk result (reader.new ≡ field_names (inner_at self.now.depth) reader.old) }
    {
        reader.write(Event::NoFieldNames)?;
        self.parts(reader, Listed::FieldName)
    }

    /// Reads a declaration of fields (C11 6.7.2.1).
    #[tactic(auto, unfolding(crate::specs::TypeSteps::fields))]
    pub fn fields(&self, reader: &mut Reader<'_>) -> Result<(), NoMemory>
        requires { Nests self.now.depth (F.pre self.now.inner) (F.post self.now.inner) }
        ensures { OnOk result (reader.new ≡ fields (inner_at self.now.depth) reader.old) }
    {
        self.ask_whole(reader, Wanted::Specifier)?;
        self.field_names(reader)?;
        reader.mark(b";");
        reader.write(Event::Fields)
    }

    /// Reads the fields of a struct, and its `}`.
    #[tactic(auto, unfolding(crate::specs::TypeSteps::all_fields))]
    pub fn all_fields(&self, reader: &mut Reader<'_>) -> Result<(), NoMemory>
        requires { Nests self.now.depth (F.pre self.now.inner) (F.post self.now.inner) }
        ensures { OnOk result (reader.new ≡ all_fields (inner_at self.now.depth) reader.old) }
    {
        reader.write(Event::NoFields)?;
        self.until_brace(reader, Braced::Fields)
    }
}
