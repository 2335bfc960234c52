ghost use Rattle.std.specs.Prelude.{◌≡◌};
ghost use Rattle.cevents.specs.Workshop.{place_at, bytes_at};

use cbase::Place;
use cgrammar::Terminal;

/// Where the token of the row with the number `at` stands in its text. Where there is no such token it is the place of none,
/// in column 0, which no token has.
pub fn place_at(row: &[Terminal<'_>], at: u32) -> Place
    ensures { result ≡ place_at row.now at }
{
    let at = at as usize;
    if at < row.len() {
        return row[at].place();
    }
    Place::NONE
}

/// The bytes of the token of the row with the number `at` as it is read, and none where there is no such token.
pub fn bytes_at<'a>(row: &[Terminal<'a>], at: u32) -> &'a [u8]
    ensures { result.now ≡ bytes_at row.now at }
{
    let at = at as usize;
    if at < row.len() {
        return row[at].bytes();
    }
    &[]
}
