//! What a row may ask.

/// What is asked of a text.
#[derive(Clone, Copy)]
pub enum Kind {
    /// Nothing: the text stands in front of that of the next row.
    Repeat,
    /// Its tokens.
    Tokens,
    /// Names in scopes.
    Scope,
    /// Whether its bytes are an integer constant.
    Constant,
    /// Which operators its bytes are.
    Mark,
    /// Which of its tokens are passed over.
    Passed,
    /// Its items.
    Items,
    /// Those of them that main needs.
    Needed,
    /// What is answered of its last item.
    Last,
    /// The places in its last item.
    Places,
    /// Whether `t` is a typedef behind its items.
    Typedef,
    /// Where the expression at a token ends, and whether it is a difference of a difference and another.
    Expression,
    /// Where the block at a token ends.
    Block,
    /// The same, with how many statements it has.
    Statements,
    /// Its first construct.
    Construct,
    /// Its first change of layout.
    Layout,
    /// What stands at a token.
    Terminal,
}

/// The words of the kinds.
const KINDS: [(&str, Kind); 17] = [
    ("repeat", Kind::Repeat),
    ("tokens", Kind::Tokens),
    ("scope", Kind::Scope),
    ("constant", Kind::Constant),
    ("mark", Kind::Mark),
    ("passed", Kind::Passed),
    ("items", Kind::Items),
    ("needed", Kind::Needed),
    ("last", Kind::Last),
    ("places", Kind::Places),
    ("typedef", Kind::Typedef),
    ("expression", Kind::Expression),
    ("block", Kind::Block),
    ("statements", Kind::Statements),
    ("construct", Kind::Construct),
    ("layout", Kind::Layout),
    ("terminal", Kind::Terminal),
];

/// The kind that a word names, among these.
fn named(word: &str, rows: &[(&str, Kind)]) -> Option<Kind> {
    for (name, kind) in rows {
        if *name == word {
            return Some(*kind);
        }
    }
    None
}

/// The kind that a word names.
pub fn kind_of(word: &str) -> Option<Kind> {
    named(word, &KINDS)
}
