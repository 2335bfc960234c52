ghost use Rattle.std.specs.Prelude.{◌≡◌, List, IfOk, OnOk, is_some};
ghost use Rattle.cgrammar.specs.NameTables.{value_in};
ghost use Rattle.cgrammar.specs.Scope.{Names, declared, declared_around, file_scope};
ghost use Rattle.cgrammar.specs.Typedefs.{HasTypedefs};

use crate::names::Names;
use cbase::NoMemory;
use std::alloc::Global;

/// The names that may be those of typedefs: each that a scope has declared as one, whether that scope is still open or not. Most
/// names are none of them, and need to be looked up here alone.
#[derive(Drop)]
pub struct Typedefs {
    names: Names,
}

impl Typedefs {
    /// No names. It takes no memory.
    pub fn new(alloc: Global) -> Typedefs
        ensures { HasTypedefs file_scope result.names }
    {
        Typedefs {
            names: Names::new(alloc),
        }
    }

    /// Whether the name may be a typedef's.
    pub fn may_have(&self, name: &[u8]) -> bool
        ensures { result ≡ is_some (value_in name.now self.now.names) }
    {
        !self.names.is_empty() && self.names.found(name).is_some()
    }

    /// Notes a name that a scope is about to declare, as a typedef or as anything else. Where memory is wanting the names stay
    /// right for the scopes as they are.
    #[tactic(auto, using(crate::proofs::TypedefNames::put_kept, crate::proofs::TypedefNames::put_declared, crate::proofs::TypedefNames::put_around, crate::proofs::TypedefNames::other_declared, crate::proofs::TypedefNames::other_around))]
    pub fn declare(&mut self, alloc: Global, name: &[u8], typedef: bool) -> Result<(), NoMemory>
        ensures kept { (scopes : List Names) → HasTypedefs scopes self.old.names → HasTypedefs scopes self.new.names }
        ensures ok { OnOk result ((scopes : List Names) → HasTypedefs scopes self.old.names → HasTypedefs (declared name.now typedef scopes) self.new.names) }
        ensures around { OnOk result ((scopes : List Names) → HasTypedefs scopes self.old.names → HasTypedefs (declared_around name.now typedef scopes) self.new.names) }
    {
        if !typedef {
            return Ok(());
        }
        self.names.declare(alloc, name, true)
    }

    /// A copy, with the same names.
    pub fn copied(&self) -> Result<Typedefs, NoMemory>
        ensures { IfOk result (λ copy. copy.names ≡ self.now.names) }
    {
        Ok(Typedefs {
            names: self.names.copied()?,
        })
    }
}
