//! What tokens a preprocessed C text has and where they stand, which items they make up, and which items main
//! needs.
//!
//! It knows bytes, places and brackets; which words are keywords, which are passed over and which name built-in
//! functions; and by which tokens an item names what it declares. It knows no more of the grammar: neither what an
//! item spells nor which names are typedefs.
#![tactic(auto)]

mod blanks;
mod byte;
mod closing;
mod comparing;
mod directive;
mod entry;
mod item_span;
mod item_spans;
mod known_names;
mod length;
mod mark;
mod marker;
mod need;
mod need_search;
mod numbering;
mod offered;
mod one_list;
mod passed;
mod piece;
mod piece_at;
mod progress;
mod short_words;
mod symbol;
mod symbol_of;
mod symbols;
mod token;
mod token_list;

pub use comparing::same_bytes;
pub use item_span::{Deep, ItemSpan};
pub use item_spans::items;
pub use need::needed;
pub use one_list::{one_item_list, one_token_list};
pub use passed::passed_over;
pub use symbol_of::{is_identifier, read_as};
pub use token::{Lexical, Token, TokenKind, Tokens};
pub use token_list::{tokens, tokens_of_bytes};
