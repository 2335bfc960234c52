/// What a token is to the names that an item defines.
#[derive(Clone, Copy)]
pub(crate) enum Role {
    /// A word that is no keyword.
    Name,
    /// `struct`, `union` or `enum`.
    TagWord,
    /// `typedef`.
    Typedef,
    /// `extern`.
    Extern,
    /// `static`.
    Static,
    /// `asm`, `__asm` or `__asm__`.
    Assembly,
    /// `(`.
    LeftParenthesis,
    /// `)`.
    RightParenthesis,
    /// `[`.
    LeftBracket,
    /// `]`.
    RightBracket,
    /// `{`.
    LeftBrace,
    /// `}`.
    RightBrace,
    /// `;`.
    Semicolon,
    /// `,`.
    Comma,
    /// `=`.
    Equals,
    /// Any other token.
    Other,
}

impl Role {
    ghost use Rattle.std.specs.Prelude.{◌≡◌};
    ghost use Rattle.definitions.specs.Roles.{follows_declared, is_closing, is_name, is_opening, is_storage_word, is_tag_word};

    /// Whether it is a bracket that opens, of the three kinds.
    pub(crate) fn is_opening(self) -> bool
        ensures { result ≡ is_opening self }
    {
        matches!(
            self,
            Role::LeftParenthesis | Role::LeftBracket | Role::LeftBrace
        )
    }

    /// Whether it is a bracket that closes, of the three kinds.
    pub(crate) fn is_closing(self) -> bool
        ensures { result ≡ is_closing self }
    {
        matches!(
            self,
            Role::RightParenthesis | Role::RightBracket | Role::RightBrace
        )
    }

    /// Whether it is a word that is no keyword.
    pub(crate) fn is_name(self) -> bool
        ensures { result ≡ is_name self }
    {
        matches!(self, Role::Name)
    }

    /// Whether it is `struct`, `union` or `enum`.
    pub(crate) fn is_tag_word(self) -> bool
        ensures { result ≡ is_tag_word self }
    {
        matches!(self, Role::TagWord)
    }

    /// Whether it is `typedef`, `extern` or `static`.
    pub(crate) fn is_storage_word(self) -> bool
        ensures { result ≡ is_storage_word self }
    {
        matches!(self, Role::Typedef | Role::Extern | Role::Static)
    }

    /// Whether it may stand behind a word that is declared.
    pub(crate) fn follows_declared(self) -> bool
        ensures { result ≡ follows_declared self }
    {
        matches!(
            self,
            Role::LeftParenthesis
                | Role::LeftBracket
                | Role::Equals
                | Role::Comma
                | Role::Semicolon
                | Role::Assembly
        )
    }
}
