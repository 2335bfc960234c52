ghost use Rattle.std.specs.Prelude.{◌≡◌};
ghost use Rattle.typing.specs.values.Values.{is_true};

/// Whether an integer is a condition that holds: it is not 0 (C11 6.5.3.3p5).
pub(crate) fn is_true(bits: u64) -> bool
    ensures { result ≡ is_true bits }
{
    bits != 0
}
