ghost use Rattle.std.specs.Prelude.{◌≡◌, ◌≤◌, ◌+◌, ◌<◌, ℕ, [], length, IfOk, All, Some, None, if◌then◌else◌};
ghost use Rattle.cbase.specs.declared.abi.Abi.{Abi};
ghost use Rattle.ctrees.specs.Levels.{type_name_levels, maybe_levels};
ghost use Rattle.typing.specs.declared.ctypes.found.Broken.TheVariants.{Construct};
ghost use Rattle.typing.specs.Typing.{NameOfTypeIs, SizesAre};
ghost use Rattle.expressions.specs.Found.{a_type, some_sizes};
ghost use Rattle.expressions.specs.Nests.{Nests};
ghost use Rattle.expressions.specs.Types.{IsDeclared};
ghost use Rattle.expressions.specs.Walked.{Walked, Says};

use crate::checker::{Checker, Within};
use crate::context::Context;
use crate::found::Found;
use crate::named_type::NamedType;
use crate::nodes::first::least;
use crate::part::{Part, Told};
use crate::walk::sizes::{arrays_of, found_of_sizes, pointers_to};
use cbase::{Expr, NoMemory, TypeName};
use std::alloc::Global;
use typing::Size;
use typing::ctypes::Broken;

impl<F: Fn(&mut Context, Within, Part<'_>) -> Result<Found<Told>, NoMemory>> Checker<F> {
    /// What is found of a type name (C11 6.7.7): words, stars and sizes, in the order of the text.
    ///
    /// A size that is no integer constant expression, one that is left out, and a type of more than 65,536 bytes are found at the expression that
    /// holds it. Want of memory is the only error, and nothing is said of the context then.
    pub fn type_name(
        &self,
        alloc: Global,
        context: &mut Context,
        to: &TypeName,
    ) -> Result<Found<NamedType>, NoMemory>
        requires nests { Nests self.now.abi self.now.depth (F.pre self.now.inner) (F.post self.now.inner) }
        requires deep { type_name_levels to.now ≤ self.now.depth }
        ensures { IfOk result (λ found. Walked (Says self.now.abi (λ o. NameOfTypeIs to.now o)) a_type context.old context.new found) }
    {
        let base = match self.words(alloc, context, &to.spec) {
            Ok(Found::Passes(base)) => base,
            Ok(Found::Refused(fault)) => return Ok(Found::Refused(fault)),
            Err(error) => return Err(error),
        };
        let mut sizes = Vec::new(alloc);
        match self.sizes(context, to.sizes.as_slice(), &mut sizes) {
            Ok(Found::Passes(())) => match declare(context, base, to.stars, &sizes) {
                Ok(named) => Ok(Found::Passes(named)),
                Err(error) => Err(error),
            },
            Ok(Found::Refused(fault)) => Ok(Found::Refused(fault)),
            Err(error) => Err(error),
        }
    }

    /// The sizes behind a type, the outermost first, which are put behind one another (C11 6.7.6.2).
    pub fn sizes(
        &self,
        context: &mut Context,
        sizes: &[Option<Expr>],
        found: &mut Vec<Size>,
    ) -> Result<Found<()>, NoMemory>
        requires nests { Nests self.now.abi self.now.depth (F.pre self.now.inner) (F.post self.now.inner) }
        requires deep { All (λ size. maybe_levels size ≤ self.now.depth) sizes.now }
        requires empty { found.old.items ≡ [] }
        ensures { IfOk result (λ told. Walked (Says self.now.abi (λ o. SizesAre sizes.now o)) (some_sizes found.new.items) context.old context.new told) }
    {
        for size in sizes {
            let one = match size {
                None => Size::LeftOut,
                Some(expr) => match self.array_size(context, expr) {
                    Ok(Found::Passes(one)) => one,
                    Ok(Found::Refused(fault)) => return Ok(Found::Refused(fault)),
                    Err(error) => return Err(error),
                },
            };
            found.push(one)?;
        }
        Ok(Found::Passes(()))
    }
}

/// The type of stars and sizes behind another one, with the least of what is found of it.
pub fn declare(
    context: &mut Context,
    base: NamedType,
    stars: u32,
    sizes: &[Size],
) -> Result<NamedType, NoMemory>
    requires { base.ctype < length context.old.types }
    ensures { (abi : Abi) → IfOk result (λ named. IsDeclared abi base stars sizes.now context.old context.new named) }
{
    let pointer = match pointers_to(context, base.ctype, stars) {
        Ok(pointer) => pointer,
        Err(error) => return Err(error),
    };
    match arrays_of(context, pointer, sizes) {
        Ok(ctype) => {
            let large = found_of_large(context.is_large(ctype));
            Ok(NamedType {
                ctype,
                found: least(base.found, least(found_of_sizes(sizes), large)),
            })
        }
        Err(error) => Err(error),
    }
}

/// What is found of a type that may have more than 65,536 bytes: one that has is construct 19.
fn found_of_large(large: bool) -> Option<Broken>
    ensures { result ≡ (if large then Some (Construct 19) else None) }
{
    if large {
        Some(Broken::Construct(19))
    } else {
        None
    }
}
