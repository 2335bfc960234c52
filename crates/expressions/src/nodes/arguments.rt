ghost use Rattle.std.specs.Prelude.{◌≡◌, ◌<◌, ◌||◌, not, ℕ, List, length, map, All};
ghost use Rattle.std.specs.List.{list_any};
ghost use Rattle.cbase.specs.declared.structs.StructDef.{StructDef};
ghost use Rattle.cbase.specs.declared.tree.expr.Expr.{Expr as ExprTree};
ghost use Rattle.typing.specs.ctypes.Kinds.{kind_of};
ghost use Rattle.typing.specs.Calls.{call_faults, calls_main, is_struct, is_length, lengths_of, length_faults, inconstant_lengths, large_lengths, large_product, unconverted, is_small, is_constant, times};
ghost use Rattle.typing.specs.values.Values.{cast_value};
ghost use Rattle.expressions.specs.Arguments.{arguments_at};
ghost use Rattle.expressions.specs.Context.{Agrees};
ghost use Rattle.expressions.specs.Numbers.{Numbering};
ghost use Rattle.expressions.specs.Settled.{IsFirstOf};

use crate::context::Context;
use crate::known::Known;
use crate::nodes::calling::Callee;
use crate::nodes::finishing::Node;
use crate::nodes::first::{first_of, unless};
use cbase::{Expr, Place};
use typing::Fault;
use typing::ctypes::Broken;
use typing::environment::Signature;
use typing::values::cast_value;

/// How many bytes a block may have.
const MOST_BYTES: u64 = 65_536;

/// The first of what is broken at a call of a function, behind its arguments (C11 6.5.2.2p1-2): a struct by value, a size that is no constant or too
/// large, an argument that does not convert, a wrong number of arguments, `main` where it may not be called.
pub(crate) fn call_fault(
    context: &Context,
    node: Node,
    callee: Callee<'_>,
    args: &[Expr],
    known: &[Known],
) -> Option<Fault>
    requires signature { callee.signature < length context.now.environment.signatures }
    requires known { All (λ one. one.ctype < length context.now.types) known.now }
    requires count { length known.now ≡ length args.now }
    ensures { (n : Numbering) → Agrees n context.now → IsFirstOf (call_faults context.now.environment.strict node.place callee.entry.place callee.entry.name.now callee.entry.built_in (kind_of context.now.structs (n.ctype (n.signature callee.entry.signature).result)) (map (kind_of context.now.structs) (map n.ctype (n.signature callee.entry.signature).parameters)) (arguments_at n context.now.structs args.now known.now)) result }
{
    let signature = context.signature(callee.signature);
    let params = signature.parameters.as_slice();
    let by_value = unless(
        !has_struct(context, signature, known),
        node.place,
        Broken::Construct(13),
    );
    let lengths = length_fault(context, node.place, callee, params, args, known);
    let converted = unconverted(context, params, args, known);
    let counted = unless(params.len() == args.len(), callee.place, Broken::Rule(7));
    let allowed = unless(
        !calls_main(context.is_strict(), callee.name),
        callee.place,
        Broken::Rule(13),
    );
    first_of(
        by_value,
        first_of(lengths, first_of(converted, first_of(counted, allowed))),
    )
}

/// Whether it is `main` that is called where it may not be.
fn calls_main(strict: bool, name: &[u8]) -> bool
    ensures { result ≡ calls_main strict name.now }
{
    strict && name == b"main".as_slice()
}

/// Whether a struct is the result, a parameter or an argument.
fn has_struct(context: &Context, signature: &Signature, known: &[Known]) -> bool
    requires result { signature.now.result < length context.now.types }
    requires params { All (λ param. param < length context.now.types) signature.now.parameters }
    requires known { All (λ one. one.ctype < length context.now.types) known.now }
    ensures { (n : Numbering) → Agrees n context.now → result ≡ (is_struct (kind_of context.now.structs (n.ctype signature.now.result)) || (list_any (λ param. is_struct (kind_of context.now.structs (n.ctype param))) signature.now.parameters || list_any (λ one. is_struct (kind_of context.now.structs (n.ctype one.ctype))) known.now)) }
{
    context.is_struct(signature.result)
        || is_struct_among(context, signature.parameters.as_slice())
        || is_struct_in(context, known)
}

/// Whether one of some types is a struct.
fn is_struct_among(context: &Context, params: &[u32]) -> bool
    requires { All (λ param. param < length context.now.types) params.now }
    ensures { (n : Numbering) → Agrees n context.now → result ≡ list_any (λ param. is_struct (kind_of context.now.structs (n.ctype param))) params.now }
{
    for param in params {
        if context.is_struct(*param) {
            return true;
        }
    }
    false
}

/// Whether one of some arguments is a struct.
fn is_struct_in(context: &Context, known: &[Known]) -> bool
    requires { All (λ one. one.ctype < length context.now.types) known.now }
    ensures { (n : Numbering) → Agrees n context.now → result ≡ list_any (λ one. is_struct (kind_of context.now.structs (n.ctype one.ctype))) known.now }
{
    for one in known {
        if context.is_struct(one.ctype) {
            return true;
        }
    }
    false
}

/// The first argument that does not convert to the type of its parameter, which is rule 5 at it (C11 6.5.2.2p2, p7).
fn unconverted(context: &Context, params: &[u32], args: &[Expr], known: &[Known]) -> Option<Fault>
    requires params { All (λ param. param < length context.now.types) params.now }
    requires known { All (λ one. one.ctype < length context.now.types) known.now }
    requires count { length known.now ≡ length args.now }
    ensures { (n : Numbering) → Agrees n context.now → IsFirstOf (unconverted (map (kind_of context.now.structs) (map n.ctype params.now)) (arguments_at n context.now.structs args.now known.now)) result }
{
    let mut first = None;
    for at in 0..params.len().min(args.len()) {
        let fits = context.converts(params[at], known[at].operand());
        first = first_of(first, unless(fits, args[at].place, Broken::Rule(5)));
    }
    first
}

/// What is broken of the sizes of a function that is built in.
fn length_fault(
    context: &Context,
    place: Place,
    callee: Callee<'_>,
    params: &[u32],
    args: &[Expr],
    known: &[Known],
) -> Option<Fault>
    requires params { All (λ param. param < length context.now.types) params.now }
    requires known { All (λ one. one.ctype < length context.now.types) known.now }
    requires count { length known.now ≡ length args.now }
    ensures { (n : Numbering) → Agrees n context.now → IsFirstOf (length_faults callee.entry.built_in callee.entry.name.now place (map (kind_of context.now.structs) (map n.ctype params.now)) (arguments_at n context.now.structs args.now known.now)) result }
{
    if !callee.built_in {
        return None;
    }
    let inconstant = inconstant_length(callee.name, params, args, known);
    let large = large_length(context, callee.name, params, args, known);
    let product = large_product(context, callee.name, place, params, known);
    first_of(inconstant, first_of(large, product))
}

/// The first size that is no integer constant expression, which is construct 14 at it.
fn inconstant_length(name: &[u8], params: &[u32], args: &[Expr], known: &[Known]) -> Option<Fault>
    requires count { length known.now ≡ length args.now }
    ensures { (n : Numbering) (structs : List StructDef) → IsFirstOf (inconstant_lengths (lengths_of name.now) 0 (map (kind_of structs) (map n.ctype params.now)) (arguments_at n structs args.now known.now)) result }
{
    let mut first = None;
    for at in 0..params.len().min(args.len()) {
        let fits = is_fixed(name, at, known[at].value);
        first = first_of(first, unless(fits, args[at].place, Broken::Construct(14)));
    }
    first
}

/// Whether an argument is an integer constant expression if it is a size, where so many stand before it.
fn is_fixed(name: &[u8], index: usize, value: Option<u64>) -> bool
    ensures { result ≡ (not (is_length (lengths_of name.now) index) || is_constant value) }
{
    !is_length(name, index) || value.is_some()
}

/// The first size of more than 65,536 bytes, converted to the type of its parameter, which is construct 19 at it.
fn large_length(
    context: &Context,
    name: &[u8],
    params: &[u32],
    args: &[Expr],
    known: &[Known],
) -> Option<Fault>
    requires params { All (λ param. param < length context.now.types) params.now }
    requires known { All (λ one. one.ctype < length context.now.types) known.now }
    requires count { length known.now ≡ length args.now }
    ensures { (n : Numbering) → Agrees n context.now → IsFirstOf (large_lengths (lengths_of name.now) 0 (map (kind_of context.now.structs) (map n.ctype params.now)) (arguments_at n context.now.structs args.now known.now)) result }
{
    let mut first = None;
    for at in 0..params.len().min(args.len()) {
        let fits = is_short(name, at, length_in(context, params[at], known[at]));
        first = first_of(first, unless(fits, args[at].place, Broken::Construct(19)));
    }
    first
}

/// Whether an argument is at most 65,536 bytes if it is a size, where so many stand before it.
fn is_short(name: &[u8], index: usize, bytes: Option<u64>) -> bool
    ensures { result ≡ (not (is_length (lengths_of name.now) index) || is_small bytes) }
{
    !is_length(name, index) || is_small(bytes)
}

/// A product of the two sizes of `calloc` of more than 65,536 bytes, which is construct 19 at the call.
fn large_product(
    context: &Context,
    name: &[u8],
    place: Place,
    params: &[u32],
    known: &[Known],
) -> Option<Fault>
    requires params { All (λ param. param < length context.now.types) params.now }
    requires known { All (λ one. one.ctype < length context.now.types) known.now }
    ensures { (n : Numbering) (args : List ExprTree) → Agrees n context.now → length known.now ≡ length args → IsFirstOf (large_product name.now place (map (kind_of context.now.structs) (map n.ctype params.now)) (arguments_at n context.now.structs args known.now)) result }
{
    if name != b"calloc".as_slice() {
        return None;
    }
    if params.len() < 2 || known.len() < 2 {
        return None;
    }
    let fits = is_small_product(
        length_in(context, params[0], known[0]),
        length_in(context, params[1], known[1]),
    );
    unless(fits, place, Broken::Construct(19))
}

/// The value of a size, converted to the type of its parameter.
fn length_in(context: &Context, param: u32, one: Known) -> Option<u64>
    requires param { param < length context.now.types }
    requires one { one.ctype < length context.now.types }
    ensures { (n : Numbering) → Agrees n context.now → result ≡ cast_value (kind_of context.now.structs (n.ctype param)) (kind_of context.now.structs (n.ctype one.ctype)) one.value }
{
    cast_value(
        context.integer_type(param),
        context.integer_type(one.ctype),
        one.value,
    )
}

/// Whether a size is at most 65,536 bytes.
fn is_small(bytes: Option<u64>) -> bool
    ensures { result ≡ is_small bytes }
{
    match bytes {
        None => true,
        Some(bytes) => bytes <= MOST_BYTES,
    }
}

/// Whether the product of two sizes is at most 65,536 bytes, as a whole number.
fn is_small_product(one: Option<u64>, other: Option<u64>) -> bool
    ensures { result ≡ is_small (times one other) }
{
    match (one, other) {
        (Some(one), Some(other)) => match one.checked_mul(other) {
            Some(product) => product <= MOST_BYTES,
            None => false,
        },
        _ => true,
    }
}

/// Whether the parameter before which so many stand is a size or a length, in the function of that name that is built in.
fn is_length(name: &[u8], index: usize) -> bool
    ensures { result ≡ is_length (lengths_of name.now) index }
{
    if name == b"malloc".as_slice() {
        index == 0
    } else if name == b"calloc".as_slice() {
        index == 0 || index == 1
    } else if name == b"memset".as_slice()
        || name == b"memcpy".as_slice()
        || name == b"memmove".as_slice()
    {
        index == 2
    } else {
        false
    }
}
