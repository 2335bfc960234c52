ghost use Rattle.std.specs.Prelude.{◌≡◌, ◌<◌, ◌++◌, ◌∷◌, [], ℕ, List as ListOf, Option as OptionOf, Some, length, option_map, OnOk, IfSome};
ghost use Rattle.cbase.specs.declared.abi.Abi.{Abi};
ghost use Rattle.cbase.specs.declared.abi.Abi.TheVariants.{Lp64};
ghost use Rattle.cbase.specs.Kept.{capped, IsSmall};
ghost use Rattle.cbase.specs.Layout.{layout_of};
ghost use Rattle.typing.specs.ctypes.Structs.{fields_of};
ghost use Rattle.typing.specs.ctypes.Table.{type_at};
ghost use Rattle.typing.specs.Braces.{has_member, member, is_large_struct};
ghost use Rattle.expressions.specs.Context.{Context as AtPlace};
ghost use Rattle.expressions.specs.Members.{AreMembers};

use cbase::{Layout, List, NoMemory, Text};
use std::alloc::Global;
use typing::ctypes::Member;
use typing::environment::Names;

/// The most bytes that an object may have.
const MOST_BYTES: u32 = 65_536;

/// The members that a struct has so far, while its braces are walked, with what is asked of them for each further one.
#[derive(Drop)]
pub(crate) struct Members {
    /// The members, in the order of the text.
    pub(crate) list: List<Member>,
    /// Their names, which are a name space of their own (C11 6.2.3).
    pub(crate) names: Names<()>,
    /// How they are laid, before the padding behind the last one (C11 6.7.2.1p15, p17).
    pub(crate) layout: Layout,
}

impl Members {
    /// No members. It takes no memory.
    pub(crate) fn new(alloc: Global) -> Members
        ensures none { result.list ≡ [] }
        ensures are { (context : AtPlace) → AreMembers context result.list result.names result.layout }
    {
        Members {
            list: List::new(alloc),
            names: Names::new(alloc),
            layout: Layout::empty(),
        }
    }

    /// Whether one of them has that name (C11 6.2.3).
    pub(crate) fn has(&self, name: &[u8]) -> bool
        ensures { (context : AtPlace) → AreMembers context self.now.list self.now.names self.now.layout → result ≡ has_member (Some name.now) (fields_of context.types self.now.list) }
    {
        self.names.get(name).is_some()
    }

    /// Whether a struct of them and one of that layout has more than 65,536 bytes, with its padding; `None` is for a type without a size.
    pub(crate) fn is_large_with(&self, layout: Option<Layout>) -> bool
        requires before { IsSmall self.now.layout }
        requires member { IfSome layout IsSmall }
        ensures { (context : AtPlace) (abi : Abi) (name : OptionOf (ListOf ℕ)) (number : ℕ) → AreMembers context self.now.list self.now.names self.now.layout
            → layout ≡ option_map capped (layout_of Lp64 context.structs (type_at context.types number))
            → result ≡ is_large_struct abi context.structs (fields_of context.types self.now.list ++ member name (type_at context.types number) ∷ []) }
    {
        match layout {
            None => false,
            Some(layout) => self.layout.with_field(layout).padded().size > MOST_BYTES,
        }
    }

    /// Puts a member of that name, type and layout behind them. Want of memory is the only error, and nothing is said of them then.
    pub(crate) fn push(
        &mut self,
        alloc: Global,
        name: &[u8],
        ctype: u32,
        layout: Layout,
    ) -> Result<(), NoMemory>
        requires before { IsSmall self.old.layout }
        requires member { IsSmall layout }
        ensures pushed { OnOk result (self.new.list ≡ self.old.list ++ record { name = name.now; ctype = ctype } ∷ []) }
        ensures are { OnOk result ((context : AtPlace) → AreMembers context self.old.list self.old.names self.old.layout → ctype < length context.types
            → Some layout ≡ option_map capped (layout_of Lp64 context.structs (type_at context.types ctype)) → AreMembers context self.new.list self.new.names self.new.layout) }
    {
        self.layout = self.layout.with_field(layout);
        self.list.push(Member {
            name: Text::from_slice(alloc, name)?,
            ctype,
        })?;
        self.names.put(alloc, name, ())
    }

    /// The members alone.
    pub(crate) fn into_list(self) -> List<Member>
        ensures { result ≡ self.list }
    {
        let Members { list, .. } = self;
        list
    }
}
