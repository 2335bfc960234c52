ghost use Rattle.std.specs.Prelude.{◌≡◌, ◌<◌, List, Some, length, slice_get, slice_set};
ghost use Rattle.std.specs.Option.{option_copied};
ghost use Rattle.cbase.specs.declared.ctype.CType.{CType};
ghost use Rattle.cbase.specs.Completing.{is_open};
ghost use Rattle.typing.specs.ctypes.Structs.{read_off};
ghost use Rattle.typing.specs.ctypes.Kept.{closed};

use cbase::{Layout, List, Text};
use indexmap::IndexMap;

/// A member of a struct, as its declaration gives it.
#[derive(Drop)]
pub struct Member {
    /// Its name.
    pub name: Text,
    /// The number of its type.
    pub ctype: u32,
}

/// Where a member lies in its struct.
#[derive(Clone, Copy)]
pub struct MemberAt {
    /// How many bytes lie before it; 65,537 stands for every larger number as well.
    pub offset: u32,
    /// How many members stand before it.
    pub index: u32,
    /// The number of its type.
    pub ctype: u32,
}

/// How the members of a struct are laid.
#[derive(Drop)]
pub(crate) struct Laid {
    /// The layout of the struct.
    pub(crate) layout: Layout,
    /// The first member of each name.
    pub(crate) places: IndexMap<Vec<u8>, MemberAt>,
    /// Where each member lies, in the order of the members.
    pub(crate) in_order: Vec<MemberAt>,
}

/// A struct, as far as the text has defined it, with its layout.
#[derive(Drop)]
pub(crate) struct Entry {
    /// Its tag, empty where it has none.
    pub(crate) name: Text,
    /// Whether its members were given.
    pub(crate) complete: bool,
    /// Its members, in the order in which they lie in memory.
    pub(crate) members: List<Member>,
    /// Its layout, once it is complete.
    pub(crate) layout: Option<Layout>,
    /// The first member of each name.
    pub(crate) places: IndexMap<Vec<u8>, MemberAt>,
    /// Where each member lies, in the order of the members.
    pub(crate) in_order: Vec<MemberAt>,
}

/// The struct of that number.
pub(crate) fn entry_at(entries: &[Entry], number: usize) -> Option<&Entry>
    ensures { option_copied result ≡ slice_get entries.now number }
{
    entries.get(number)
}

/// The place of that index in a list.
pub(crate) fn place_at(places: &[MemberAt], index: usize) -> Option<MemberAt>
    ensures { result ≡ slice_get places.now index }
{
    places.get(index).copied()
}

/// Whether there is a struct of that number whose members are to be given yet.
pub(crate) fn is_open(entries: &[Entry], number: usize) -> bool
    ensures { (types : List CType) → result ≡ is_open (slice_get (read_off types entries.now) number) }
{
    match entry_at(entries, number) {
        None => false,
        Some(entry) => !entry.complete,
    }
}

/// Gives a struct its members, which are laid so.
pub(crate) fn close(entries: &mut Vec<Entry>, number: usize, members: List<Member>, laid: Laid)
    requires { number < length entries.old.items }
    ensures { (entry : Entry) → slice_get entries.old.items number ≡ Some entry → entries.new.items ≡ slice_set entries.old.items number (closed entry members laid) }
{
    let Laid {
        layout,
        places,
        in_order,
    } = laid;
    let entry = &mut entries[number];
    entry.members = members;
    entry.complete = true;
    entry.layout = Some(layout);
    entry.places = places;
    entry.in_order = in_order;
}
