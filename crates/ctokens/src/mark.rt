//! The marks.

ghost use Rattle.std.specs.Prelude.{◌≡◌, ◌≤◌, ◌&&◌, ◌||◌, [], ◌∷◌, length};
ghost use Rattle.ctokens.specs.Marks.{is_mark};
ghost use Rattle.ctokens.specs.Lengths.{single_length, double_length, mark_length};

/// How many bytes the longest mark at the front of the text takes, or 0 where none stands there.
#[tactic(auto, unfolding(crate::specs::Lengths::mark_length))]
pub(crate) fn mark_length(text: &[u8]) -> usize
    ensures count { result ≡ mark_length text.now }
    ensures inside { result ≤ length text.now }
{
    match text {
        [] => 0,
        [first] => single_length(*first),
        [first, second] => double_length(*first, *second),
        [first, second, third, ..] => {
            if is_triple(*first, *second, *third) {
                return 3;
            }
            double_length(*first, *second)
        }
    }
}

/// How many of the two bytes the longest mark at their front takes, or 0 where none stands there.
#[tactic(auto, unfolding(crate::specs::Lengths::double_length))]
fn double_length(first: u8, second: u8) -> usize
    ensures count { result ≡ double_length first second }
    ensures inside { result ≤ 2 }
{
    if is_double(first, second) {
        return 2;
    }
    single_length(first)
}

/// 1 where the byte is a mark, and else 0.
#[tactic(auto, unfolding(crate::specs::Lengths::single_length))]
fn single_length(first: u8) -> usize
    ensures count { result ≡ single_length first }
    ensures inside { result ≤ 1 }
{
    if is_single(first) {
        return 1;
    }
    0
}

/// Whether the byte is a mark.
fn is_single(first: u8) -> bool
    ensures { result ≡ is_mark (first ∷ []) }
{
    b"[](){}.&*+-~!/%<>^|?:;=,".contains(&first)
}

/// Whether the bytes are a mark.
fn is_double(first: u8, second: u8) -> bool
    ensures { result ≡ is_mark (first ∷ (second ∷ [])) }
{
    match first {
        b'-' => second == b'>' || second == b'-' || second == b'=',
        b'+' => second == b'+' || second == b'=',
        b'<' => second == b'<' || second == b'=',
        b'>' => second == b'>' || second == b'=',
        b'&' => second == b'&' || second == b'=',
        b'|' => second == b'|' || second == b'=',
        b'=' | b'!' | b'*' | b'/' | b'%' | b'^' => second == b'=',
        _ => false,
    }
}

/// Whether the bytes are a mark.
fn is_triple(first: u8, second: u8, third: u8) -> bool
    ensures { result ≡ is_mark (first ∷ (second ∷ (third ∷ []))) }
{
    first == b'.' && second == b'.' && third == b'.'
        || first == b'<' && second == b'<' && third == b'='
        || first == b'>' && second == b'>' && third == b'='
}
