ghost use Rattle.std.specs.Prelude.{◌≡◌, ◌<◌, length, option_map, IfSome};
ghost use Rattle.expressions.specs.Numbers.{Numbering};
ghost use Rattle.c_machine.specs.Program.{Program, store_in};
ghost use Rattle.c_machine.specs.Trees.{store_of};
ghost use Rattle.c_text.specs.FirstRows.{first_in};
ghost use Rattle.c_text.specs.Kept.{kept_store};
ghost use Rattle.c_text.specs.Stores.{store_here};
ghost use Rattle.c_text.specs.Stands.{StandsFor};

use crate::kinds::type_kind;
use crate::store::Store;
use crate::store_row::StoreRow;
use crate::stores::store_found;
use crate::typed_text::TypedText;

impl TypedText {
    /// What the value of an initialiser sets, if it sets anything: the expression of that number, in the initialiser of the object whose name stands there
    /// (C11 6.7.9).
    ///
    /// It is `None` exactly where its type is not kept, as `type_kind` says. It takes one look-up by hash.
    pub fn store(&self, token: u32, number: u32) -> Option<Option<Store>>
        ensures { (n : Numbering) (p : Program) → StandsFor n self.now p → result ≡ kept_store (option_map (store_of p) (store_in p.handed token number)) }
    {
        match self.store_row(token, number) {
            None => Some(None),
            Some(row) => match type_kind(self.context.types(), row.ctype) {
                None => None,
                Some(kind) => Some(Some(Store {
                    offset: u64::from(row.offset),
                    kind,
                })),
            },
        }
    }

    /// The row of a store.
    fn store_row(&self, token: u32, number: u32) -> Option<StoreRow>
        ensures is { result ≡ first_in (store_here token number) self.now.handed }
        ensures typed { IfSome result (λ row. row.ctype < length self.now.types) }
    {
        store_found(&self.tables.stores, token, number)
    }
}
