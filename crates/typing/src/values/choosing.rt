ghost use Rattle.std.specs.Prelude.{◌≡◌, true};
ghost use Rattle.typing.specs.ctypes.Kinds.{Kind, integer_in};
ghost use Rattle.typing.specs.values.Values.{is_whole, of_choice, choice_value};

use crate::ctypes::IntegerType;
use crate::values::condition::is_true;
use crate::values::converting::{as_type, common};
use crate::values::whole::whole;

/// The value of `?:`, where it has one: that of the arm that is chosen, in the type of both (C11 6.5.15p4-5, 6.6p6).
///
/// The condition and both arms are given by their types, if these are ones of integers, and by their values, if they have
/// some; also the arm that is not chosen needs one.
pub fn choice_value(
    test: Option<IntegerType>,
    chooses: Option<u64>,
    left: Option<IntegerType>,
    x: Option<u64>,
    right: Option<IntegerType>,
    y: Option<u64>,
) -> Option<u64>
    ensures { (condition first second : Kind) → integer_in condition ≡ test → integer_in first ≡ left → integer_in second ≡ right → result ≡ choice_value condition chooses first x second y }
{
    match (test, chooses, whole(left), x, whole(right), y) {
        (Some(_), Some(chooses), Some(left), Some(x), Some(right), Some(y)) => {
            Some(of_choice(is_true(chooses), left, x, right, y))
        }
        _ => None,
    }
}

/// The value of the arm that is chosen.
fn of_choice(holds: bool, left: IntegerType, x: u64, right: IntegerType, y: u64) -> u64
    requires left { is_whole left ≡ true }
    requires right { is_whole right ≡ true }
    ensures { result ≡ of_choice holds left x right y }
{
    let both = common(left, right);
    if holds {
        as_type(left, both, x)
    } else {
        as_type(right, both, y)
    }
}
