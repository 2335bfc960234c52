ghost use Rattle.std.specs.Prelude.{◌≡◌, ◌<◌, map, length, All};
ghost use Rattle.typing.specs.Heads.{has_struct, takes_struct};
ghost use Rattle.expressions.specs.Context.{Agrees};
ghost use Rattle.expressions.specs.Numbers.{Numbering};
ghost use Rattle.items.specs.parameters.Parameters.{parameter_at};

use crate::parameters::Parameter;
use expressions::Context;

/// Whether a function takes or gives a struct.
pub(crate) fn has_struct(context: &Context, result_type: u32, params: &[Parameter]) -> bool
    requires of { result_type < length context.now.types }
    requires params { All (λ param. param.ctype < length context.now.types) params.now }
    ensures { (n : Numbering) → Agrees n context.now → result ≡ has_struct context.now.structs (n.ctype result_type) (map (parameter_at n) params.now) }
{
    context.is_struct(result_type) || takes_struct(context, params)
}

/// Whether one of some parameters is a struct.
fn takes_struct(context: &Context, params: &[Parameter]) -> bool
    requires { All (λ param. param.ctype < length context.now.types) params.now }
    ensures { (n : Numbering) → Agrees n context.now → result ≡ takes_struct context.now.structs (map (parameter_at n) params.now) }
{
    for param in params {
        if context.is_struct(param.ctype) {
            return true;
        }
    }
    false
}
