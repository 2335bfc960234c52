ghost use Rattle.std.specs.Prelude.{◌≡◌, ◌<◌, drop, length, IfOk};
ghost use Rattle.cbase.specs.declared.abi.Abi.{Abi};
ghost use Rattle.typing.specs.Declarations.{found_in_sizes, if_large};
ghost use Rattle.items.specs.declarations.Given.{is_left_out, IsGivenType, IsFoundOfName};

use cbase::NoMemory;
use expressions::{Context, NamedType, arrays_of, found_of_sizes, least, pointers_to};
use typing::Size;
use typing::ctypes::Broken;
use typing::environment::DeclaredType;

/// The type that a name has by words, stars and sizes, of which the outermost may be left out (C11 6.7.6). Only types get numbers.
///
/// Want of memory is the only error, and nothing is said of the context then.
pub fn given_type(
    context: &mut Context,
    base: NamedType,
    stars: u32,
    sizes: &[Size],
) -> Result<DeclaredType, NoMemory>
    requires { base.ctype < length context.old.types }
    ensures { IfOk result (λ given. IsGivenType base stars sizes.now context.old context.new given) }
{
    let pointer = pointers_to(context, base.ctype, stars)?;
    if is_left_out(sizes) {
        let item = arrays_of(context, pointer, behind_first(sizes))?;
        return Ok(DeclaredType::UnsizedArray(item));
    }
    let whole = arrays_of(context, pointer, sizes)?;
    Ok(DeclaredType::Whole(whole))
}

/// The least of what is found of the type of a name: of its words, of its sizes, and whether it has more than 65,536 bytes, for which an array whose
/// size is left out is taken as one of one item. Only types get numbers.
///
/// Want of memory is the only error, and nothing is said of the context then.
pub fn found_of_name(
    context: &mut Context,
    base: NamedType,
    stars: u32,
    sizes: &[Size],
) -> Result<Option<Broken>, NoMemory>
    requires { base.ctype < length context.old.types }
    ensures { (abi : Abi) → IfOk result (λ found. IsFoundOfName abi base stars sizes.now context.old context.new found) }
{
    let pointer = pointers_to(context, base.ctype, stars)?;
    let whole = arrays_of(context, pointer, sizes)?;
    let large = if_large(context.is_large(whole));
    Ok(least(base.found, least(found_in_sizes(sizes), large)))
}

/// What is found of sizes, of which the outermost may be left out.
fn found_in_sizes(sizes: &[Size]) -> Option<Broken>
    ensures { result ≡ found_in_sizes sizes.now }
{
    if is_left_out(sizes) {
        return found_of_sizes(behind_first(sizes));
    }
    found_of_sizes(sizes)
}

/// The sizes behind the outermost one.
fn behind_first(sizes: &[Size]) -> &[Size]
    ensures { result.now ≡ drop 1 sizes.now }
{
    if sizes.is_empty() {
        return sizes;
    }
    &sizes[1..]
}

/// Whether the outermost size is left out.
fn is_left_out(sizes: &[Size]) -> bool
    ensures { result ≡ is_left_out sizes.now }
{
    match sizes {
        [Size::LeftOut, ..] => true,
        _ => false,
    }
}

/// A type of more than 65,536 bytes is construct 19.
fn if_large(large: bool) -> Option<Broken>
    ensures { result ≡ if_large large }
{
    if large {
        Some(Broken::Construct(19))
    } else {
        None
    }
}
