ghost use Rattle.std.specs.Prelude.{◌≡◌, true};
ghost use Rattle.flow.specs.Valid.{is_scalar_size, is_object_size, fits_size, has_sizes};

use crate::instruction::Instr;

/// The most bytes that an object may have.
const MOST_BYTES: u32 = 65_536;

/// Whether a size is that of a scalar: 1, 2, 4 or 8 bytes.
pub fn is_scalar_size(size: u32) -> bool
    ensures { result ≡ is_scalar_size size }
{
    size == 1 || size == 2 || size == 4 || size == 8
}

/// Whether an object may have so many bytes.
pub fn is_object_size(size: u32) -> bool
    ensures { result ≡ is_object_size size }
{
    size <= MOST_BYTES
}

/// Whether a number fits the size of a scalar.
pub fn fits_size(size: u8, number: u64) -> bool
    requires { is_scalar_size size ≡ true }
    ensures { result ≡ fits_size size number }
{
    match size {
        1 => number < 256,
        2 => number < 65_536,
        4 => number < 4_294_967_296,
        _ => true,
    }
}

/// Whether a constant has the size of a scalar, and its number fits it.
fn is_constant(size: u8, number: u64) -> bool
    ensures { result ≡ has_sizes (Instr.Number 0 number size) }
{
    is_scalar_size(u32::from(size)) && fits_size(size, number)
}

/// Whether a load has the size of a scalar, and 8 bytes at a pointer type.
fn is_load(size: u8, pointer: bool) -> bool
    ensures { result ≡ has_sizes (Instr.Read 0 0 size pointer) }
{
    is_scalar_size(u32::from(size)) && (!pointer || size == 8)
}

/// Whether the sizes of an instruction are such as it may have.
pub fn has_sizes(instr: &Instr) -> bool
    ensures { result ≡ has_sizes instr.now }
{
    match instr {
        Instr::Number { value, size, .. } => is_constant(*size, *value),
        Instr::Read { size, pointer, .. } => is_load(*size, *pointer),
        Instr::Write { size, .. }
        | Instr::Compute { size, .. }
        | Instr::Convert { size, .. }
        | Instr::Input { size, .. } => is_scalar_size(u32::from(*size)),
        Instr::Allocate { bytes, .. } => is_object_size(*bytes),
        Instr::Fill { length, .. } | Instr::Copy { length, .. } => is_object_size(*length),
        _ => true,
    }
}
