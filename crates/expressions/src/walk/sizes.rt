ghost use Rattle.std.specs.Prelude.{◌≡◌, ◌<◌, ℕ, length, IfOk};
ghost use Rattle.typing.specs.NamedTypes.{items, with_stars, with_sizes, found_of_size, found_of_sizes};
ghost use Rattle.expressions.specs.Numbers.{Numbering};
ghost use Rattle.expressions.specs.Operated.{Numbers};

use crate::context::Context;
use crate::nodes::first::least;
use cbase::NoMemory;
use typing::Size;
use typing::ctypes::Broken;

/// The type of stars behind a type (C11 6.7.6.1).
pub fn pointers_to(context: &mut Context, ctype: u32, stars: u32) -> Result<u32, NoMemory>
    requires { ctype < length context.old.types }
    ensures { IfOk result (λ number. Numbers (λ n. with_stars stars (n.ctype ctype)) context.old context.new number) }
{
    let mut number = ctype;
    let mut left = stars;
    while left > 0 {
        left -= 1;
        match context.pointer_to(number) {
            Ok(pointer) => number = pointer,
            Err(error) => return Err(error),
        }
    }
    Ok(number)
}

/// The type of sizes behind a type, the outermost first (C11 6.7.6.2).
pub fn arrays_of(context: &mut Context, ctype: u32, sizes: &[Size]) -> Result<u32, NoMemory>
    requires { ctype < length context.old.types }
    ensures { IfOk result (λ number. Numbers (λ n. with_sizes sizes.now (n.ctype ctype)) context.old context.new number) }
{
    let mut number = ctype;
    let mut left = sizes.len();
    while left > 0 {
        left -= 1;
        match context.array_of(number, items(sizes[left])) {
            Ok(array) => number = array,
            Err(error) => return Err(error),
        }
    }
    Ok(number)
}

/// How many items an array of that size is taken to have.
fn items(size: Size) -> u64
    ensures { result ≡ items size }
{
    match size {
        Size::Counted(count) => count,
        Size::NotConstant | Size::LeftOut => 1,
    }
}

/// The least of what is found of sizes.
pub fn found_of_sizes(sizes: &[Size]) -> Option<Broken>
    ensures { result ≡ found_of_sizes sizes.now }
{
    let mut found = None;
    let mut left = sizes.len();
    while left > 0 {
        left -= 1;
        found = least(found_of_size(sizes[left]), found);
    }
    found
}

/// What is found of a size: one that is no integer constant expression is construct 18, one that is left out rule 3.
fn found_of_size(size: Size) -> Option<Broken>
    ensures { result ≡ found_of_size size }
{
    match size {
        Size::Counted(_) => None,
        Size::NotConstant => Some(Broken::Construct(18)),
        Size::LeftOut => Some(Broken::Rule(3)),
    }
}
