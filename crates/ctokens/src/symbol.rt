/// What a token is to items, and to the names that they offer and contain.
#[derive(Clone, Copy)]
pub(crate) enum Symbol {
    /// A word that is none of those below.
    Name,
    /// `main`.
    Main,
    /// The name of a built-in function.
    BuiltIn,
    /// `__assert_fail`, a keyword that names a built-in function.
    AssertFail,
    /// A keyword that is none of those below.
    Keyword,
    /// `struct` or `union`.
    Structure,
    /// `enum`.
    Enumeration,
    /// `asm`, `__asm` or `__asm__`.
    Assembly,
    /// A token that is passed over.
    PassedOver,
    /// `__attribute__` or `__attribute`.
    Attribute,
    /// `(`.
    LeftParenthesis,
    /// `)`.
    RightParenthesis,
    /// `[`.
    LeftBracket,
    /// `]`.
    RightBracket,
    /// `{`.
    LeftBrace,
    /// `}`.
    RightBrace,
    /// `;`.
    Semicolon,
    /// `,`.
    Comma,
    /// `=`.
    Equals,
    /// `*`.
    Star,
    /// `.` or `->`.
    Selector,
    /// Any other token.
    Other,
}

impl Symbol {
    ghost use Rattle.std.specs.Prelude.{◌≡◌};
    ghost use Rattle.ctokens.specs.Symbol.{is_word, is_identifier, is_main, is_built_in, is_tag_word, is_opening, is_closing, is_enumeration, is_attribute, is_passed_over, is_left_parenthesis, is_right_parenthesis, is_left_brace, is_right_brace, is_semicolon, is_comma, is_equals, is_star, is_selector};
    ghost use Rattle.ctokens.specs.Offered.{follows_bracketed, follows_declared, says_declared};

    /// Whether it is a word, a keyword or not.
    pub(crate) fn is_word(self) -> bool
        ensures { result ≡ is_word self }
    {
        matches!(
            self,
            Symbol::Name
                | Symbol::Main
                | Symbol::BuiltIn
                | Symbol::AssertFail
                | Symbol::Keyword
                | Symbol::Structure
                | Symbol::Enumeration
                | Symbol::Assembly
        )
    }

    /// Whether it is a word that is no keyword.
    pub(crate) fn is_identifier(self) -> bool
        ensures { result ≡ is_identifier self }
    {
        matches!(self, Symbol::Name | Symbol::Main | Symbol::BuiltIn)
    }

    /// Whether it is `main`.
    pub(crate) fn is_main(self) -> bool
        ensures { result ≡ is_main self }
    {
        matches!(self, Symbol::Main)
    }

    /// Whether it is the name of a built-in function.
    pub(crate) fn is_built_in(self) -> bool
        ensures { result ≡ is_built_in self }
    {
        matches!(self, Symbol::BuiltIn | Symbol::AssertFail)
    }

    /// Whether it is `struct`, `union` or `enum`.
    pub(crate) fn is_tag_word(self) -> bool
        ensures { result ≡ is_tag_word self }
    {
        matches!(self, Symbol::Structure | Symbol::Enumeration)
    }

    /// Whether it is `enum`.
    pub(crate) fn is_enumeration(self) -> bool
        ensures { result ≡ is_enumeration self }
    {
        matches!(self, Symbol::Enumeration)
    }

    /// Whether it is the word of an attribute.
    pub(crate) fn is_attribute(self) -> bool
        ensures { result ≡ is_attribute self }
    {
        matches!(self, Symbol::Attribute)
    }

    /// Whether the token is passed over.
    pub(crate) fn is_passed_over(self) -> bool
        ensures { result ≡ is_passed_over self }
    {
        matches!(self, Symbol::PassedOver)
    }

    /// Whether it is a bracket that opens, of the three kinds.
    pub(crate) fn is_opening(self) -> bool
        ensures { result ≡ is_opening self }
    {
        matches!(
            self,
            Symbol::LeftParenthesis | Symbol::LeftBracket | Symbol::LeftBrace
        )
    }

    /// Whether it is a bracket that closes, of the three kinds.
    pub(crate) fn is_closing(self) -> bool
        ensures { result ≡ is_closing self }
    {
        matches!(
            self,
            Symbol::RightParenthesis | Symbol::RightBracket | Symbol::RightBrace
        )
    }

    /// Whether it is `(`.
    pub(crate) fn is_left_parenthesis(self) -> bool
        ensures { result ≡ is_left_parenthesis self }
    {
        matches!(self, Symbol::LeftParenthesis)
    }

    /// Whether it is `)`.
    pub(crate) fn is_right_parenthesis(self) -> bool
        ensures { result ≡ is_right_parenthesis self }
    {
        matches!(self, Symbol::RightParenthesis)
    }

    /// Whether it is `{`.
    pub(crate) fn is_left_brace(self) -> bool
        ensures { result ≡ is_left_brace self }
    {
        matches!(self, Symbol::LeftBrace)
    }

    /// Whether it is `}`.
    pub(crate) fn is_right_brace(self) -> bool
        ensures { result ≡ is_right_brace self }
    {
        matches!(self, Symbol::RightBrace)
    }

    /// Whether it is `;`.
    pub(crate) fn is_semicolon(self) -> bool
        ensures { result ≡ is_semicolon self }
    {
        matches!(self, Symbol::Semicolon)
    }

    /// Whether it is `,`.
    pub(crate) fn is_comma(self) -> bool
        ensures { result ≡ is_comma self }
    {
        matches!(self, Symbol::Comma)
    }

    /// Whether it is `=`.
    pub(crate) fn is_equals(self) -> bool
        ensures { result ≡ is_equals self }
    {
        matches!(self, Symbol::Equals)
    }

    /// Whether it is `*`.
    pub(crate) fn is_star(self) -> bool
        ensures { result ≡ is_star self }
    {
        matches!(self, Symbol::Star)
    }

    /// Whether it is `.` or `->`.
    pub(crate) fn is_selector(self) -> bool
        ensures { result ≡ is_selector self }
    {
        matches!(self, Symbol::Selector)
    }

    /// Whether it stands behind the `)` of brackets round a declared word.
    fn follows_bracketed(self) -> bool
        ensures { result ≡ follows_bracketed self }
    {
        matches!(
            self,
            Symbol::LeftParenthesis | Symbol::LeftBracket | Symbol::Equals | Symbol::Assembly
        )
    }

    /// Whether it says, with the token behind it, that the word before it, which stands in one bracket, is a declared one.
    pub(crate) fn says_declared(self, after: Symbol) -> bool
        ensures { result ≡ says_declared self after }
    {
        match self {
            Symbol::LeftBracket => true,
            Symbol::LeftParenthesis => !after.is_star(),
            Symbol::RightParenthesis => after.follows_bracketed(),
            _ => false,
        }
    }

    /// Whether it may stand behind a word that is declared: `(`, `[`, `=`, `,`, `;` or `asm`.
    pub(crate) fn follows_declared(self) -> bool
        ensures { result ≡ follows_declared self }
    {
        matches!(
            self,
            Symbol::LeftParenthesis
                | Symbol::LeftBracket
                | Symbol::Equals
                | Symbol::Comma
                | Symbol::Semicolon
                | Symbol::Assembly
        )
    }
}

/// A token of an item: what it is, and its word.
#[derive(Clone, Copy)]
pub(crate) struct Lexeme<N> {
    /// What it is.
    pub(crate) symbol: Symbol,
    /// Its bytes, or a number for them.
    pub(crate) word: N,
}
