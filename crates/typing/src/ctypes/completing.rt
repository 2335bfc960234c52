ghost use Rattle.std.specs.Prelude.{◌≡◌, ◌<◌, [], ◌∷◌, ◌++◌, All, length, slice_get, IfOk, OnOk, OnErr, if◌then◌else◌};
ghost use Rattle.cbase.specs.Completing.{fieldless, is_open, may_complete, completed};
ghost use Rattle.typing.specs.ctypes.Structs.{fields_of};

use crate::ctypes::laying::lay;
use crate::ctypes::structs::{Entry, Member, close, is_open};
use crate::ctypes::types::Types;
use cbase::{List, NoMemory, Text};
use indexmap::IndexMap;
use std::alloc::Global;

impl Types {
    /// Puts a struct of that name, which is incomplete, behind the others, and gives its number.
    ///
    /// There are at most 2^32 structs: the call that would want one more answers as where memory is wanting.
    /// Then all stays as it was.
    pub fn declare(&mut self, alloc: Global, name: Text) -> Result<u32, NoMemory>
        ensures ok { OnOk result (self.new.structs ≡ self.old.structs ++ fieldless name ∷ []) }
        ensures number { IfOk result (λ number. number ≡ length self.old.structs) }
        ensures types { self.new.types ≡ self.old.types }
        ensures err { OnErr result (self.new.structs ≡ self.old.structs) }
    {
        let Ok(number) = u32::try_from(self.structs.len()) else {
            return Err(NoMemory);
        };
        self.structs.push(Entry {
            name,
            complete: false,
            members: List::new(alloc),
            layout: None,
            places: IndexMap::new(alloc),
            in_order: Vec::new(alloc),
        })?;
        Ok(number)
    }

    /// Whether there is a struct of that number whose members are to be given yet. It takes no memory and one step.
    pub fn is_open(&self, number: u32) -> bool
        ensures { result ≡ is_open (slice_get self.now.structs number) }
    {
        is_open(&self.structs, number as usize)
    }

    /// Gives the struct of that number its members, with which it is complete (C11 6.7.2.1p8).
    ///
    /// It answers whether it has done so. It has not, and all stays as it was, exactly where there is no such
    /// struct, where its members were given before (6.7.2.3p1), and where a member's type is incomplete
    /// (6.7.2.1p3). Where memory is wanting all stays as it was, too. It takes a step for each member.
    pub fn complete(
        &mut self,
        alloc: Global,
        number: u32,
        members: List<Member>,
    ) -> Result<bool, NoMemory>
        requires { All (λ member. member.ctype < length self.old.types) members }
        ensures answer { IfOk result (λ done. done ≡ may_complete self.old.structs number (fields_of self.old.types members)) }
        ensures after { IfOk result (λ done. self.new.structs ≡ (if done then completed self.old.structs number (fields_of self.old.types members) else self.old.structs)) }
        ensures types { self.new.types ≡ self.old.types }
        ensures err { OnErr result (self.new.structs ≡ self.old.structs) }
    {
        if !is_open(&self.structs, number as usize) {
            return Ok(false);
        }
        match lay(alloc, members.as_slice(), self)? {
            None => Ok(false),
            Some(laid) => {
                close(&mut self.structs, number as usize, members, laid);
                Ok(true)
            }
        }
    }
}
