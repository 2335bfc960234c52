ghost use Rattle.std.specs.Prelude.{◌≡◌, ◌≤◌, ◌++◌, take, drop, length};

/// Copies the first `count` bytes of `from` into the front of `into`.
pub(crate) fn copy_front(from: &[u8], into: &mut [u8], count: usize)
    requires there { count ≤ length from.now }
    requires room { count ≤ length into.old }
    ensures copied { from.now ≡ take count into.new ++ drop count from.now }
    ensures after { into.new ≡ take count from.now ++ drop count into.old }
{
    into[..count].copy_from_slice(&from[..count]);
}
