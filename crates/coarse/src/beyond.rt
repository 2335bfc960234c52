//! Constants far from 0.
ghost use Rattle.std.specs.Prelude.{◌≡◌, ◌+◌, ◌≤◌, true, unsigned_abs};
ghost use Rattle.arithmetic.specs.Value.{modulus, twos_complement};
ghost use Rattle.graph.specs.Sizes.{is_scalar_size, is_sized};
ghost use Rattle.coarse.specs.Beyond.{is_beyond};

use graph::Value;

/// The greatest number of a size, all of whose bits are set.
fn greatest(size: u8) -> u64
    requires { is_scalar_size size ≡ true }
    ensures { result + 1 ≡ modulus size }
{
    match size {
        1 => 0xff,
        2 => 0xffff,
        4 => 0xffff_ffff,
        _ => 0xffff_ffff_ffff_ffff,
    }
}

/// How far from 0 an integer is whose bits are a number, where this is the greatest number of its size.
fn distance(number: u64, greatest: u64) -> u64
    requires { number ≤ greatest }
    ensures { result ≡ unsigned_abs (twos_complement (greatest + 1) number) }
{
    if number <= greatest - number {
        number
    } else {
        greatest - number + 1
    }
}

/// Whether a value is a constant beyond plus or minus a limit.
pub(crate) fn is_beyond(limit: u32, value: Value) -> bool
    requires { is_sized value ≡ true }
    ensures { result ≡ is_beyond limit value }
{
    match value {
        Value::Const { number, size } => distance(number, greatest(size)) > limit as u64,
        Value::Number { size: _ } => false,
        Value::Any => false,
        Value::Address {
            object: _,
            offset: _,
            target: _,
        } => false,
    }
}
