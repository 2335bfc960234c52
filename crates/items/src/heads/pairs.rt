ghost use Rattle.std.specs.Prelude.{◌≡◌, ◌≤◌, ◌⊎◌};

/// How many pairs two rows of so many make, of which one may have some more.
pub(crate) fn pairs(one: usize, other: usize) -> usize
    ensures within { result ≤ one }
    ensures inside { result ≤ other }
    ensures all { (result ≡ one) ⊎ (result ≡ other) }
{
    if one < other { one } else { other }
}
