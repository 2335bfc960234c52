ghost use Rattle.std.specs.Prelude.{◌≡◌, IfOk};
ghost use Rattle.cbase.specs.declared.abi.Abi.{Abi};
ghost use Rattle.typing.specs.declared.ctypes.found.Broken.TheVariants.{Rule};
ghost use Rattle.typing.specs.Faults.{fault};
ghost use Rattle.expressions.specs.Opened.{IsStructOpened, IsEnumOpened};

use crate::context::Context;
use crate::found::Found;
use cbase::{Identifier, NoMemory};
use std::alloc::Global;
use typing::Fault;
use typing::ctypes::Broken;
use typing::environment::Tag;

impl Context {
    /// The number of the struct whose members follow in braces (C11 6.7.2.3p1, p4, p6): one that this scope declares and that has none yet, or a new one.
    /// A tag that this scope declares for an enum, or for a struct whose members are listed, is rule 2 at it, also inside the braces of that struct.
    ///
    /// Want of memory is the only error, and nothing is said of the context then.
    pub fn open_struct(
        &mut self,
        alloc: Global,
        name: &Option<Identifier>,
    ) -> Result<Found<u32>, NoMemory>
        ensures { (abi : Abi) → IfOk result (λ found. IsStructOpened abi name.now self.old self.new found) }
    {
        let Some(tag) = name else {
            return match self.add_struct(alloc) {
                Ok(number) => Ok(Found::Passes(number)),
                Err(error) => Err(error),
            };
        };
        match self.tag_here(tag.name.as_slice()) {
            None => match self.declare_struct(alloc, tag.name.as_slice(), true) {
                Ok(number) => Ok(Found::Passes(number)),
                Err(error) => Err(error),
            },
            Some(
                Tag::Struct {
                    number,
                    listed: false,
                },
            ) => match self.list_struct(alloc, tag.name.as_slice(), number) {
                Ok(()) => Ok(Found::Passes(number)),
                Err(error) => Err(error),
            },
            Some(Tag::Struct { listed: true, .. }) | Some(Tag::Enum { .. }) => {
                Ok(Found::Refused(twice(tag)))
            }
        }
    }

    /// Whether the constants of an enum may follow in braces, which are declared by its tag, where it has one (C11 6.7.2.3p1, p4, p6). A tag that this scope
    /// declares for a struct, or for an enum with constants, is rule 2 at it.
    ///
    /// Where memory is wanting all stays as it was.
    pub fn open_enum(
        &mut self,
        alloc: Global,
        name: &Option<Identifier>,
    ) -> Result<Option<Fault>, NoMemory>
        ensures { (abi : Abi) → IfOk result (λ refused. IsEnumOpened abi name.now self.old self.new refused) }
    {
        let Some(tag) = name else {
            return Ok(None);
        };
        match self.tag_here(tag.name.as_slice()) {
            None | Some(Tag::Enum { listed: false }) => {
                match self.list_enum(alloc, tag.name.as_slice()) {
                    Ok(()) => Ok(None),
                    Err(error) => Err(error),
                }
            }
            Some(Tag::Enum { listed: true }) | Some(Tag::Struct { .. }) => Ok(Some(twice(tag))),
        }
    }
}

/// A tag that is given its contents twice is rule 2 at it.
fn twice(tag: &Identifier) -> Fault
    ensures { result ≡ fault tag.now.place (Rule 2) }
{
    Fault {
        place: tag.place,
        broken: Broken::Rule(2),
    }
}
