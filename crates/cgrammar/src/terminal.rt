ghost use Rattle.std.specs.Prelude.{◌≡◌, ◌<◌, ◌≤◌, length};
ghost use Rattle.ctokens.specs.SymbolTables.{read_as};
ghost use Rattle.cgrammar.specs.Operators.{mark_row, binary_rows, assignment_rows, unary_rows, count_rows, member_rows};
ghost use Rattle.cgrammar.specs.ReadStarts.{is_constant};
ghost use Rattle.cgrammar.specs.TokenReadings.{storage_of};
ghost use Rattle.cgrammar.specs.Terminals.{bytes_read, is_any_word, is_mark, is_mark_kind, is_name, is_typedef, is_word, terminal_of};

use crate::constants::has_integer_parts;
use crate::left_out::is_left_out;
use crate::operators::{
    assignment_operator, binary_operator, count_operator, member_operator, unary_operator,
};
use crate::scope::Scope;
use cbase::{BinaryOp, Place, Storage, UnaryOp};
use ctokens::{Token, TokenKind, is_identifier, read_as, same_bytes};
use std::marker::Model;

/// A token as the grammar sees it: what it is, its bytes as it is read, and where it stands.
#[derive(Drop)]
pub struct Terminal<'a> {
    /// The token of the text. Its number there counts the tokens that are passed over too.
    pub token: &'a Token,
    /// Its bytes as it is read: those of the text, but that `__signed__` is read as `signed`, and `__typeof__` and
    /// `__typeof` as `typeof`.
    pub bytes: &'a [u8],
}

impl<'a> Model for Terminal<'a> {
    ghost use Rattle.cgrammar.specs.Terminals.{Terminal as Seen};

    ghost Value = { Seen };

    ghost view = { λ terminal. record { kind = terminal.token.now.kind; bytes = terminal.bytes.now; place = terminal.token.now.place } };
}

impl<'a> Terminal<'a> {
    /// What the token is.
    pub fn kind(&self) -> TokenKind
        ensures { result ≡ self.now.kind }
    {
        self.token.kind
    }

    /// Its bytes as it is read.
    pub fn bytes(&self) -> &'a [u8]
        ensures { result.now ≡ self.now.bytes }
    {
        self.bytes
    }

    /// Where it stands.
    pub fn place(&self) -> Place
        ensures { result ≡ self.now.place }
    {
        self.token.place
    }

    /// Whether it is a word, a keyword or not.
    pub fn is_any_word(&self) -> bool
        ensures { result ≡ is_any_word self.now }
    {
        matches!(self.token.kind, TokenKind::Word)
    }

    /// Whether it is the word with these bytes.
    pub fn is_word(&self, bytes: &[u8]) -> bool
        ensures { result ≡ is_word bytes.now self.now }
    {
        matches!(self.token.kind, TokenKind::Word) && same_bytes(self.bytes, bytes)
    }

    /// Whether it is an identifier (C11 6.4.2): a word that is no keyword, and none of those of GNU C that no rule speaks
    /// of, `__float128`, `__int128`, `__complex__`, `__thread` and what begins with `_Float`.
    pub fn is_name(&self) -> bool
        ensures { result ≡ is_name self.now }
    {
        if !self.is_any_word() {
            return false;
        }
        is_identifier(self.bytes) && !is_left_out(self.bytes)
    }

    /// Whether it is an identifier that a typedef declares (C11 6.7.8). Most words are no typedef's, and then it is not asked
    /// whether they are keywords.
    #[tactic(auto, using(ctokens::proofs::Choices::false_and))]
    pub fn is_typedef(&self, scope: &Scope) -> bool
        ensures { result ≡ is_typedef scope.now self.now }
    {
        self.is_any_word() && (scope.is_typedef(self.bytes) && self.is_name())
    }

    /// The storage class that it names, where it is the word `typedef`, `extern` or `static` (C11 6.7.1); `None` where it is
    /// none of them.
    pub fn storage_word(&self) -> Option<Storage>
        ensures { result ≡ storage_of self.now }
    {
        if self.is_word(b"typedef") {
            return Some(Storage::Typedef);
        }
        if self.is_word(b"extern") {
            return Some(Storage::Extern);
        }
        if self.is_word(b"static") {
            return Some(Storage::Static);
        }
        None
    }

    /// The binary operator that it is, behind its level: from 0 for `||`, the loosest, to 9 for `*`, `/` and `%` (C11 6.5.5
    /// to 6.5.14). The comma is none of them. `None` where it is no binary operator.
    pub fn binary(&self) -> Option<(u8, BinaryOp)>
        ensures { result ≡ mark_row binary_rows self.now }
    {
        if !self.is_any_mark() {
            return None;
        }
        binary_operator(self.bytes)
    }

    /// What the assignment operator that it is does before its store: `Some(None)` for `=`, which does nothing (C11
    /// 6.5.16). `None` where it is no assignment operator.
    pub fn assignment(&self) -> Option<Option<BinaryOp>>
        ensures { result ≡ mark_row assignment_rows self.now }
    {
        if !self.is_any_mark() {
            return None;
        }
        assignment_operator(self.bytes)
    }

    /// The prefix operator that it is (C11 6.5.3.2, 6.5.3.3). `++`, `--` and `sizeof` are none of them. `None` where it is
    /// no prefix operator.
    pub fn unary(&self) -> Option<UnaryOp>
        ensures { result ≡ mark_row unary_rows self.now }
    {
        if !self.is_any_mark() {
            return None;
        }
        unary_operator(self.bytes)
    }

    /// Whether it counts up, where it is `++` or `--`; `None` where it is neither (C11 6.5.2.4, 6.5.3.1).
    pub fn counting(&self) -> Option<bool>
        ensures { result ≡ mark_row count_rows self.now }
    {
        if !self.is_any_mark() {
            return None;
        }
        count_operator(self.bytes)
    }

    /// Whether it goes to a member through a pointer, where it is `->` or `.`; `None` where it is neither (C11 6.5.2.3).
    pub fn member(&self) -> Option<bool>
        ensures { result ≡ mark_row member_rows self.now }
    {
        if !self.is_any_mark() {
            return None;
        }
        member_operator(self.bytes)
    }

    /// Whether it is an integer constant (C11 6.4.4.1) or a constant of one character (C11 6.4.4.4).
    pub fn is_constant(&self) -> bool
        ensures { result ≡ is_constant self.now }
    {
        match self.token.kind {
            TokenKind::Number => has_integer_parts(self.bytes),
            TokenKind::Letter => true,
            TokenKind::Word | TokenKind::Quoted | TokenKind::Mark => false,
        }
    }

    /// Whether it is a mark.
    fn is_any_mark(&self) -> bool
        ensures { result ≡ is_mark_kind self.now.kind }
    {
        matches!(self.token.kind, TokenKind::Mark)
    }

    /// Whether it is the mark with these bytes.
    pub fn is_mark(&self, bytes: &[u8]) -> bool
        ensures { result ≡ is_mark bytes.now self.now }
    {
        matches!(self.token.kind, TokenKind::Mark) && same_bytes(self.bytes, bytes)
    }
}

/// The bytes of a token of the kind as it is read.
fn bytes_read<'a>(kind: TokenKind, bytes: &'a [u8]) -> &'a [u8]
    ensures { result.now ≡ bytes_read kind bytes.now }
{
    match kind {
        TokenKind::Word => read_as(bytes),
        TokenKind::Number | TokenKind::Letter | TokenKind::Quoted | TokenKind::Mark => bytes,
    }
}

/// A token of the text as the grammar sees it.
pub fn terminal_of<'a>(text: &'a [u8], token: &'a Token) -> Terminal<'a>
    requires order { token.now.from < token.now.to }
    requires inside { token.now.to ≤ length text.now }
    ensures { result ≡ terminal_of text.now token.now }
{
    Terminal {
        token,
        bytes: bytes_read(token.kind, &text[token.from as usize..token.to as usize]),
    }
}
