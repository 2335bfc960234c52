ghost use Rattle.std.specs.Prelude.{◌≡◌, ◌↔◌, ◌≤◌, ◌<◌, ◌+◌, ◌-◌, ◌^◌, ℕ, Some, None, false, length, map, take, drop};
ghost use Rattle.std.specs.List.{All};
ghost use Rattle.ctokens.specs.InText.{LieInText, most_bytes};
ghost use Rattle.ctokens.specs.declared.token.Token.{Token};
ghost use Rattle.cgrammar.specs.Readings.{row_between};
ghost use Rattle.cgrammar.specs.Terminals.{terminal_of};
ghost use Rattle.cconstructs.specs.Layout.{HasNoLayout, IsFirstLayout};
ghost use Rattle.cconstructs.specs.LayoutFinding.{attribute_from, layout_found, outside};

use crate::packed::{lesser, packed_struct};
use crate::part::{outside, part_behind, shows_layout};
use cgrammar::{Terminal, terminal_of};
use ctokens::{Token, Tokens};

/// The tokens from one number up to another.
#[tactic(auto, using(crate::proofs::Between::between_exact))]
fn between<'a>(list: &'a [Token], from: u32, to: u32) -> &'a [Token]
    ensures { result.now ≡ take (to - from) (drop from list.now) }
{
    let first = (from as usize).min(list.len());
    let rest = &list[first..];
    let count = (to.saturating_sub(from) as usize).min(rest.len());
    &rest[..count]
}

/// The number of the first name of a layout attribute among the tokens, of which the first has the number `from`.
#[tactic(auto, using(crate::proofs::Attributes::attribute_none))]
fn first_attribute(text: &[u8], list: &[Token], from: u32) -> Option<u32>
    requires ranges { All (λ (token : Token). (token.from < token.to) × (token.to ≤ length text.now)) list.now }
    requires few { length list.now ≤ most_bytes }
    requires fits { from + length list.now < 2 ^ 32 }
    ensures { result ≡ attribute_from from (outside false) (map (terminal_of text.now) list.now) }
{
    let mut part = outside(false);
    let mut number = from;
    for token in list {
        let terminal = terminal_of(text, token);
        if shows_layout(part, &terminal) {
            return Some(number);
        }
        part = part_behind(part, &terminal);
        number += 1;
    }
    None
}

/// The first change of layout as it is found.
#[tactic(auto, using(crate::proofs::Between::tokens_exact, crate::proofs::Between::between_ranges, crate::proofs::Between::between_few, crate::proofs::Between::between_fits))]
fn layout_found(t: &Tokens, row: &[Terminal<'_>], from: u32, to: u32) -> Option<u32>
    requires inside { LieInText t.now }
    requires same { row.now ≡ row_between t.now from to }
    ensures { result ≡ layout_found t.now from to }
{
    let list = between(t.list.as_slice(), from, to);
    let attribute = first_attribute(t.text.as_slice(), list, from);
    lesser(attribute, packed_struct(t.packs.as_slice(), row))
}

/// The number of the first token that shows a changed layout in the item from the token `from` up to the token `to`:
/// an attribute's name, or a `struct` with members that ends behind a `#pragma pack` line; `None` where there is no such token.
/// `row` is the item's row.
pub fn first_layout(t: &Tokens, row: &[Terminal<'_>], from: u32, to: u32) -> Option<u32>
    requires inside { LieInText t.now }
    requires same { row.now ≡ row_between t.now from to }
    ensures first { (number : ℕ) → (result ≡ Some number) ↔ IsFirstLayout t.now from to number }
    ensures none { (result ≡ None) ↔ HasNoLayout t.now from to }
{
    layout_found(t, row, from, to)
}
