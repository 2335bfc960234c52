ghost use Rattle.std.specs.Prelude.{◌≡◌};
ghost use Rattle.std.specs.Str.{bytes_eq};

/// Whether two texts have the same bytes. Most texts that differ have another length or another first byte.
pub fn same_bytes(left: &[u8], right: &[u8]) -> bool
    ensures { result ≡ bytes_eq left.now right.now }
{
    if left.len() != right.len() {
        return false;
    }
    match (left, right) {
        ([first, ..], [other, ..]) => *first == *other && are_same(left, right),
        _ => are_same(left, right),
    }
}

/// The same, where it is likely. It stands by itself, so that nothing is laid out for it where the texts differ.
fn are_same(left: &[u8], right: &[u8]) -> bool
    ensures { result ≡ bytes_eq left.now right.now }
{
    left == right
}
