ghost use Rattle.std.specs.Prelude.{◌≡◌, ℕ, Bool, List, Some, None, option_map, slice_get, if◌then◌else◌};
ghost use Rattle.cbase.specs.declared.abi.Abi.{Abi};
ghost use Rattle.cbase.specs.declared.abi.Abi.TheVariants.{Lp64};
ghost use Rattle.cbase.specs.declared.ctype.CType.{CType};
ghost use Rattle.cbase.specs.declared.structs.StructDef.{StructDef};
ghost use Rattle.cbase.specs.Layout.{layout_of, scalar, is_integer_size, pointer_bytes, repeated, struct_layout};
ghost use Rattle.cbase.specs.Ranks.{AreRanks};

use crate::ctype::CType;

/// The rules by which types are laid hold of their layouts, each as one equation.
///
/// `data_layout` says that a type has one layout by each data layout. The rule of structs is for those that have ranks, each above the ranks of the structs that its fields
/// hold other than by pointers: so none holds itself. It does nothing: who wants the rules calls it.
pub fn layout_rules()
    ensures void { (abi : Abi) (structs : List StructDef) → layout_of abi structs CType.Void ≡ None }
    ensures bool { (abi : Abi) (structs : List StructDef) → layout_of abi structs CType.Bool ≡ Some (scalar 1) }
    ensures int { (abi : Abi) (structs : List StructDef) (bytes : ℕ) (signed : Bool) → layout_of abi structs (CType.Int bytes signed) ≡ (if is_integer_size bytes then Some (scalar bytes) else None) }
    ensures pointer { (abi : Abi) (structs : List StructDef) (item : CType) → layout_of abi structs (CType.Pointer item) ≡ Some (scalar (pointer_bytes abi)) }
    ensures array { (abi : Abi) (structs : List StructDef) (item : CType) (count : ℕ) → layout_of abi structs (CType.Array item count) ≡ option_map (repeated count) (layout_of abi structs item) }
    ensures data_layout { (abi : Abi) (structs : List StructDef) (t : CType) → layout_of abi structs t ≡ layout_of Lp64 structs t }
    ensures fields { (abi : Abi) (structs : List StructDef) (rank : ℕ → ℕ) → AreRanks rank structs → (number : ℕ) → layout_of abi structs (CType.Struct number) ≡ struct_layout (layout_of abi structs) (slice_get structs number) }
{}
