ghost use Rattle.std.specs.Prelude.{◌≡◌, ◌<◌, ℕ, Some, length, IfSome};
ghost use Rattle.cbase.specs.declared.ctype.CType.TheViews.{out-CType};
ghost use Rattle.typing.specs.environment.Bounds.{BindingBelow, DeclaredBelow, LinkedBelow};
ghost use Rattle.expressions.specs.Context.{Agrees};
ghost use Rattle.expressions.specs.Numbers.{Numbering, declared_type_at};
ghost use Rattle.typing.specs.Declarations.{AreTwo, AreTwoTypes, IsAgain, given, items_in};
ghost use Rattle.items.specs.declarations.Given.{here_at, linked_now, IsTypedefAgain, IsOtherLinked, is_own};

use cbase::Storage;
use expressions::Context;
use typing::environment::{Binding, DeclaredType, Entity, Linked};

/// Whether a name that a declaration gives that type is declared twice: one without linkage is declared once in a scope, but for a typedef of the
/// same type (C11 6.7p3); what has linkage is one thing wherever it is declared (6.7p4), and no name of its scope has none.
pub fn is_again(context: &Context, name: &[u8], storage: Storage, ctype: DeclaredType) -> bool
    requires { DeclaredBelow (length context.now.types) ctype }
    ensures { (n : Numbering) → Agrees n context.now → IsAgain (here_at n context.now name.now) (linked_now n context.now name.now) (given storage (declared_type_at n ctype)) result }
{
    match storage {
        Storage::Plain => context.is_declared_here(name),
        Storage::Static => context.is_declared_here(name),
        Storage::Typedef => is_typedef_again(context.binding_here(name), ctype),
        Storage::Extern => {
            let own = is_own(context.binding_here(name));
            own || is_other(context, context.linked(name), ctype)
        }
    }
}

/// Whether a scope says of a name that it stands for something without linkage.
fn is_own(binding: Option<Binding>) -> bool
    ensures { result ≡ is_own binding }
{
    match binding {
        Some(Binding::Own(_)) => true,
        Some(Binding::WithLinkage(_)) => false,
        None => false,
    }
}

/// Whether a scope says of the name of a typedef that it is something else.
fn is_typedef_again(binding: Option<Binding>, ctype: DeclaredType) -> bool
    ensures { IsTypedefAgain binding ctype result }
{
    match binding {
        None => false,
        Some(Binding::WithLinkage(_)) => true,
        Some(Binding::Own(entity)) => match entity {
            Entity::Typedef { ctype: before } => are_two(before, ctype),
            Entity::Object { .. } => true,
            Entity::Enumerator { .. } => true,
            Entity::Function { .. } => true,
        },
    }
}

/// Whether two types that declarations give are two.
fn are_two(first: DeclaredType, second: DeclaredType) -> bool
    ensures { AreTwo first second result }
{
    first != second
}

/// Whether what has linkage under a name is another thing than an object of that type (C11 6.2.7p2).
pub fn is_other(context: &Context, linked: Option<Linked>, ctype: DeclaredType) -> bool
    requires linked { IfSome linked (LinkedBelow (length context.now.types) context.now.environment.signatures) }
    requires ctype { DeclaredBelow (length context.now.types) ctype }
    ensures { (n : Numbering) → Agrees n context.now → IsOtherLinked n linked ctype result }
{
    let Some(linked) = linked else {
        return false;
    };
    match linked.entity {
        Entity::Object { ctype: before, .. } => are_two_types(context, before, ctype),
        Entity::Function { .. } => true,
        Entity::Typedef { .. } => false,
        Entity::Enumerator { .. } => false,
    }
}

/// Whether two types of one object are two: an array whose size is not known goes with every other one of its items (C11 6.2.7p3, 6.7.6.2p6).
fn are_two_types(context: &Context, first: DeclaredType, second: DeclaredType) -> bool
    requires first { DeclaredBelow (length context.now.types) first }
    requires second { DeclaredBelow (length context.now.types) second }
    ensures { (n : Numbering) → Agrees n context.now → AreTwoTypes (declared_type_at n first) (declared_type_at n second) result }
{
    match first {
        DeclaredType::Whole(number) => match second {
            DeclaredType::Whole(other) => number != other,
            DeclaredType::UnsizedArray(item) => is_of_others(context, number, item),
        },
        DeclaredType::UnsizedArray(item) => match second {
            DeclaredType::Whole(number) => is_of_others(context, number, item),
            DeclaredType::UnsizedArray(other) => item != other,
        },
    }
}

/// Whether the type of a number is no array of items of that type.
fn is_of_others(context: &Context, number: u32, item: u32) -> bool
    requires number { number < length context.now.types }
    requires item { item < length context.now.types }
    ensures { (n : Numbering) → Agrees n context.now → AreTwo (items_in (out-CType (n.ctype number))) (Some (n.ctype item)) result }
{
    match context.item(number) {
        Some(there) => there != item,
        None => true,
    }
}
