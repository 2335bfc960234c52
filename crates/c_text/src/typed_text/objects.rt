ghost use Rattle.std.specs.Prelude.{◌≡◌, ◌<◌, Some, length, option_map, IfSome};
ghost use Rattle.expressions.specs.Numbers.{Numbering};
ghost use Rattle.c_machine.specs.Program.{Program, first_token, is_linked_in, is_static, automatic, automatic_row};
ghost use Rattle.c_machine.specs.Trees.{object_of};
ghost use Rattle.c_text.specs.FirstRows.{first_in};
ghost use Rattle.c_text.specs.Kept.{kept_object, sized};
ghost use Rattle.c_text.specs.Links.{link_here};
ghost use Rattle.c_text.specs.Objects.{object_here, object_by};
ghost use Rattle.c_text.specs.Stands.{StandsFor};

use crate::first_rows::found;
use crate::kinds::bytes_of;
use crate::object_row::ObjectRow;
use crate::typed_text::TypedText;
use c_machine::Object;

impl TypedText {
    /// How many tokens stand before the name that declared first the object that a name declares (C11 6.2.2p2), which is this name where the object has no
    /// linkage.
    ///
    /// It takes one look-up by hash.
    pub fn first_token(&self, token: u32) -> u32
        ensures { (n : Numbering) (p : Program) → StandsFor n self.now p → result ≡ first_token p token }
    {
        match self.link(token) {
            None => token,
            Some(first) => first,
        }
    }

    /// Whether the object that a name declares lives as long as the program runs (C11 6.2.4p3). It takes two look-ups by hash.
    pub fn is_static(&self, token: u32) -> bool
        ensures { (n : Numbering) (p : Program) → StandsFor n self.now p → result ≡ is_static p token }
    {
        if self.is_linked(token) {
            return true;
        }
        match self.object_row(token) {
            None => false,
            Some(row) => row.fixed,
        }
    }

    /// The automatic object without linkage that a name declares, if it declares one (C11 6.2.4p5).
    ///
    /// It is `None` exactly where there is one of more than 65,536 bytes, of which no size is kept. It takes two look-ups by hash.
    pub fn automatic(&self, token: u32) -> Option<Option<Object>>
        ensures { (n : Numbering) (p : Program) → StandsFor n self.now p → result ≡ kept_object (option_map (object_of p) (automatic p token)) }
    {
        match self.object_row(token) {
            None => Some(None),
            Some(row) => self.automatic_alone(row),
        }
    }

    /// The object of a row, if it lives as long as its block.
    fn automatic_alone(&self, row: ObjectRow) -> Option<Option<Object>>
        requires { row.ctype < length self.now.types }
        ensures { (n : Numbering) (p : Program) → StandsFor n self.now p
            → result ≡ kept_object (option_map (object_of p) (automatic_row (Some (object_by n row)))) }
    {
        if row.fixed {
            return Some(None);
        }
        match self.object(row) {
            None => None,
            Some(object) => Some(Some(object)),
        }
    }

    /// The object of a row, where its size is kept.
    pub(crate) fn object(&self, row: ObjectRow) -> Option<Object>
        requires { row.ctype < length self.now.types }
        ensures { (n : Numbering) (p : Program) → StandsFor n self.now p → result ≡ sized (object_of p (object_by n row)) }
    {
        match bytes_of(self.context.types(), row.ctype) {
            None => None,
            Some(bytes) => Some(Object {
                token: Some(self.first_token(row.token)),
                bytes,
            }),
        }
    }

    /// Whether a name is declared outside of functions, with linkage.
    pub(crate) fn is_linked(&self, token: u32) -> bool
        ensures { (n : Numbering) (p : Program) → StandsFor n self.now p → result ≡ is_linked_in p.handed token }
    {
        match self.link(token) {
            None => false,
            Some(_) => true,
        }
    }

    /// The row of the object that a name declares.
    fn object_row(&self, token: u32) -> Option<ObjectRow>
        ensures is { result ≡ first_in (object_here token) self.now.handed }
        ensures typed { IfSome result (λ row. row.ctype < length self.now.types) }
    {
        found(&self.tables.objects, token)
    }

    /// The token of the name that declared first what a name with linkage declares.
    fn link(&self, token: u32) -> Option<u32>
        ensures { result ≡ first_in (link_here token) self.now.handed }
    {
        found(&self.tables.links, token)
    }
}
