//! Functions that are built in, by their names (C11 7.22, 7.24).
ghost use Rattle.std.specs.Prelude.{◌≡◌};
ghost use Rattle.std.specs.Str.{bytes_eq};
ghost use Rattle.c_machine.specs.Expressions.{built_in, ends_run};

use c_machine::BuiltIn;

/// What a function that is built in does, by its name. It takes no memory.
pub fn built_in(name: &[u8]) -> BuiltIn
    ensures { result ≡ built_in name.now }
{
    if is(name, b"malloc") {
        BuiltIn::Malloc
    } else if is(name, b"calloc") {
        BuiltIn::Calloc
    } else if is(name, b"free") {
        BuiltIn::Free
    } else if is(name, b"memset") {
        BuiltIn::Memset
    } else if is(name, b"memcpy") {
        BuiltIn::Memcpy
    } else if is(name, b"memmove") {
        BuiltIn::Memmove
    } else if ends_run(name) {
        BuiltIn::EndsRun
    } else if is(name, b"__VERIFIER_assume") {
        BuiltIn::Assume
    } else if is(name, b"__builtin_expect") {
        BuiltIn::Expect
    } else {
        BuiltIn::GivesInput
    }
}

/// Whether the run ends at a call of that function.
fn ends_run(name: &[u8]) -> bool
    ensures { result ≡ ends_run name.now }
{
    is(name, b"abort")
        || is(name, b"exit")
        || is(name, b"__VERIFIER_error")
        || is(name, b"reach_error")
}

/// Whether a name has these bytes.
fn is(name: &[u8], bytes: &[u8]) -> bool
    ensures { result ≡ bytes_eq name.now bytes.now }
{
    name == bytes
}
