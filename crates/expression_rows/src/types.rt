//! The types of what is declared.
ghost use Rattle.std.specs.Prelude.{◌≡◌, ◌<◌, ◌≤◌, [], length, All, IfOk, OnOk};

use cbase::{Abi, List, NoMemory, Rank, bytes_of_rank};
use expressions::Context;

/// A type that is no pointer and no array.
pub enum Base {
    /// `void`.
    Void,
    /// `_Bool`.
    Bool,
    /// Integers of so many bytes, with a sign or without one.
    Integer {
        /// How many bytes they have.
        bytes: u8,
        /// Whether they have a sign.
        signed: bool,
    },
    /// Integers of as many bytes as a `long` has, with a sign or without one.
    Long {
        /// Whether they have a sign.
        signed: bool,
    },
    /// The struct of that number.
    Struct(u32),
}

/// A type of what is declared.
pub enum Written {
    /// The type itself.
    Of(Base),
    /// A pointer to it.
    PointerTo(Base),
    /// An array of so many.
    ArrayOf(Base, u64),
    /// An array of so many arrays of so many.
    GridOf(Base, u64, u64),
}

/// The number of a type that is no pointer and no array.
fn number_of_base(context: &mut Context, abi: Abi, base: &Base) -> Result<u32, NoMemory>
    ensures below { IfOk result (λ number. number < length context.new.types) }
    ensures longer { OnOk result (length context.old.types ≤ length context.new.types) }
{
    match base {
        Base::Void => context.void(),
        Base::Bool => context.boolean(),
        Base::Integer { bytes, signed } => context.integer(*bytes, *signed),
        Base::Long { signed } => context.integer(bytes_of_rank(Rank::Long, abi), *signed),
        Base::Struct(of) => context.structure(*of),
    }
}

/// The number of a type in a data layout.
pub fn number_of(context: &mut Context, abi: Abi, written: &Written) -> Result<u32, NoMemory>
    ensures below { IfOk result (λ number. number < length context.new.types) }
    ensures longer { OnOk result (length context.old.types ≤ length context.new.types) }
{
    let (Written::Of(base)
    | Written::PointerTo(base)
    | Written::ArrayOf(base, _)
    | Written::GridOf(base, _, _)) = written;
    let item = number_of_base(context, abi, base)?;
    match written {
        Written::Of(_) => Ok(item),
        Written::PointerTo(_) => context.pointer_to(item),
        Written::ArrayOf(_, count) => context.array_of(item, *count),
        Written::GridOf(_, rows, columns) => {
            let row = context.array_of(item, *columns)?;
            context.array_of(row, *rows)
        }
    }
}

/// Puts the numbers of some types into an empty list.
pub fn numbers_of(
    context: &mut Context,
    abi: Abi,
    written: &[Written],
    numbers: &mut List<u32>,
) -> Result<(), NoMemory>
    requires { numbers.old ≡ [] }
    ensures below { OnOk result (All (λ number. number < length context.new.types) numbers.new) }
    ensures longer { OnOk result (length context.old.types ≤ length context.new.types) }
{
    for one in written {
        let number = number_of(context, abi, one)?;
        numbers.push(number)?;
    }
    Ok(())
}
