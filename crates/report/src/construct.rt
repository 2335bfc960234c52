ghost use Rattle.std.specs.Prelude.{◌≡◌};
ghost use Rattle.cbase.specs.Refused.{IsConstruct};
ghost use Rattle.report.specs.Construct.{construct_name};

/// The printed name of a construct of C that is given up, by its number, from 1 to 21.
pub(crate) fn name_of_construct(number: u8) -> &'static [u8]
    requires { IsConstruct number }
    ensures { result.now ≡ construct_name number }
{
    match number {
        1 => b"goto",
        2 => b"switch",
        3 => b"union",
        4 => b"floating type",
        5 => b"variable arguments",
        6 => b"inline assembly",
        7 => b"layout attribute",
        8 => b"complex type",
        9 => b"thread-local object",
        10 => b"string literal",
        11 => b"call through pointer",
        12 => b"name without definition",
        13 => b"struct by value",
        14 => b"size not constant",
        15 => b"pointer cast",
        16 => b"pointer order",
        17 => b"pointer difference",
        18 => b"variable length array",
        19 => b"large object",
        20 => b"function pointer",
        21 => b"bit-field",
        _ => unreachable!(),
    }
}
