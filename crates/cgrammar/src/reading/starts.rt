ghost use Rattle.std.specs.Prelude.{◌≡◌};
ghost use Rattle.cgrammar.specs.Firsts.{is_among, begins_type, begins_declaration, type_words, storage_words};
ghost use Rattle.cgrammar.specs.Operators.{mark_row, unary_rows, count_rows, member_rows};
ghost use Rattle.cgrammar.specs.ReadStarts.{operand_start, unary_start, counting_start, postfix_start, member_start, count_start, type_start, statement_start};

use crate::basic_words::is_basic_word;
use crate::scope::Scope;
use crate::terminal::Terminal;
use crate::texts::is_one_of;
use cbase::UnaryOp;

/// The keywords that a type begins with.
const TYPE_WORDS: [&'static str; 11] = [
    "void", "_Bool", "char", "signed", "unsigned", "short", "int", "long", "struct", "enum",
    "typeof",
];

/// The words of storage classes.
const STORAGE_WORDS: [&'static str; 3] = ["typedef", "extern", "static"];

/// What an operand begins with (C11 6.5.1 to 6.5.4).
#[derive(Clone, Copy)]
pub enum OperandStart {
    /// `(`: of an expression in brackets, a cast or a statement expression.
    Bracket,
    /// `++` or `--`, with whether it counts up.
    Count(bool),
    /// A prefix operator.
    Unary(UnaryOp),
    /// The word `sizeof`.
    SizeOf,
    /// The word `__builtin_offsetof`.
    OffsetOf,
    /// The word `__assert_fail`.
    AssertFail,
    /// An identifier, a typedef's name or not.
    Name,
    /// A constant.
    Constant,
    /// Nothing that an operand begins with.
    Other,
}

/// What goes on with an operand behind it (C11 6.5.2).
#[derive(Clone, Copy)]
pub enum PostfixStart {
    /// `[`.
    Index,
    /// `(`.
    Call,
    /// `.` or `->`, with whether it goes through a pointer.
    Member(bool),
    /// `++` or `--`, with whether it counts up.
    Count(bool),
    /// Nothing that goes on with an operand in this way.
    Other,
}

/// What a type begins with (C11 6.7.2).
#[derive(Clone, Copy)]
pub enum TypeStart {
    /// The word `typeof`.
    TypeOf,
    /// The word `struct`.
    Struct,
    /// The word `enum`.
    Enum,
    /// A keyword that basic types are spelled by.
    Basic,
    /// A typedef's name.
    Named,
    /// Nothing that a type begins with.
    Other,
}

/// What a statement begins with (C11 6.8).
#[derive(Clone, Copy)]
pub enum StatementStart {
    /// `{`.
    Block,
    /// The word `if`.
    If,
    /// The word `while`.
    While,
    /// The word `do`.
    Do,
    /// The word `for`.
    For,
    /// The word `break`.
    Break,
    /// The word `continue`.
    Continue,
    /// The word `return`.
    Return,
    /// Any other token: what stands there is an expression before a `;`, a `;` alone, a label, or no statement.
    Other,
}

/// With what an operand begins whose first token this is.
#[tactic(auto, unfolding(crate::specs::ReadStarts::operand_start))]
pub fn operand_start(token: &Terminal<'_>) -> OperandStart
    ensures { result ≡ operand_start token.now }
{
    if token.is_name() {
        return OperandStart::Name;
    }
    if token.is_constant() {
        return OperandStart::Constant;
    }
    if token.is_mark(b"(") {
        return OperandStart::Bracket;
    }
    if token.is_word(b"sizeof") {
        return OperandStart::SizeOf;
    }
    if token.is_word(b"__builtin_offsetof") {
        return OperandStart::OffsetOf;
    }
    if token.is_word(b"__assert_fail") {
        return OperandStart::AssertFail;
    }
    unary_start(token)
}

/// The operator before an operand, where the token is one.
fn unary_start(token: &Terminal<'_>) -> OperandStart
    ensures { result ≡ unary_start (mark_row unary_rows token.now) token.now }
{
    match token.unary() {
        Some(op) => OperandStart::Unary(op),
        None => counting_start(token),
    }
}

/// `++` or `--` before an operand, where the token is one.
fn counting_start(token: &Terminal<'_>) -> OperandStart
    ensures { result ≡ counting_start (mark_row count_rows token.now) }
{
    match token.counting() {
        Some(up) => OperandStart::Count(up),
        None => OperandStart::Other,
    }
}

/// What goes on with an operand where this token stands behind it.
#[tactic(auto, unfolding(crate::specs::ReadStarts::postfix_start))]
pub fn postfix_start(token: &Terminal<'_>) -> PostfixStart
    ensures { result ≡ postfix_start token.now }
{
    if token.is_mark(b"[") {
        return PostfixStart::Index;
    }
    if token.is_mark(b"(") {
        return PostfixStart::Call;
    }
    member_start(token)
}

/// `.` or `->` behind an operand, where the token is one.
fn member_start(token: &Terminal<'_>) -> PostfixStart
    ensures { result ≡ member_start (mark_row member_rows token.now) token.now }
{
    match token.member() {
        Some(through) => PostfixStart::Member(through),
        None => count_start(token),
    }
}

/// `++` or `--` behind an operand, where the token is one.
fn count_start(token: &Terminal<'_>) -> PostfixStart
    ensures { result ≡ count_start (mark_row count_rows token.now) }
{
    match token.counting() {
        Some(up) => PostfixStart::Count(up),
        None => PostfixStart::Other,
    }
}

/// With what a type begins whose first token this is, where these names are in scope.
#[tactic(auto, unfolding(crate::specs::ReadStarts::type_start))]
pub fn type_start(scope: &Scope, token: &Terminal<'_>) -> TypeStart
    ensures { result ≡ type_start scope.now token.now }
{
    if token.is_typedef(scope) {
        return TypeStart::Named;
    }
    if is_basic_word(token) {
        return TypeStart::Basic;
    }
    if token.is_word(b"struct") {
        return TypeStart::Struct;
    }
    if token.is_word(b"enum") {
        return TypeStart::Enum;
    }
    if token.is_word(b"typeof") {
        return TypeStart::TypeOf;
    }
    TypeStart::Other
}

/// With what a statement begins whose first token this is.
#[tactic(auto, unfolding(crate::specs::ReadStarts::statement_start))]
pub fn statement_start(token: &Terminal<'_>) -> StatementStart
    ensures { result ≡ statement_start token.now }
{
    if token.is_mark(b"{") {
        return StatementStart::Block;
    }
    if token.is_word(b"if") {
        return StatementStart::If;
    }
    if token.is_word(b"while") {
        return StatementStart::While;
    }
    if token.is_word(b"do") {
        return StatementStart::Do;
    }
    if token.is_word(b"for") {
        return StatementStart::For;
    }
    if token.is_word(b"break") {
        return StatementStart::Break;
    }
    if token.is_word(b"continue") {
        return StatementStart::Continue;
    }
    if token.is_word(b"return") {
        return StatementStart::Return;
    }
    StatementStart::Other
}

/// Whether a type begins with the token, where these names are in scope (C11 6.7.2).
pub fn begins_type(scope: &Scope, token: &Terminal<'_>) -> bool
    ensures { result ≡ begins_type scope.now token.now }
{
    is_type_word(token) || token.is_typedef(scope)
}

/// Whether a declaration begins with the token, where these names are in scope (C11 6.7). No keyword that it begins with has
/// fewer than three bytes.
#[tactic(auto, using(crate::proofs::ShortWords::short_declaration))]
pub fn begins_declaration(scope: &Scope, token: &Terminal<'_>) -> bool
    ensures { result ≡ begins_declaration scope.now token.now }
{
    if token.bytes().len() < 3 {
        return token.is_typedef(scope);
    }
    is_storage_word(token) || begins_type(scope, token)
}

/// Whether the token is a keyword that a type begins with.
fn is_type_word(token: &Terminal<'_>) -> bool
    ensures { result ≡ is_among type_words token.now }
{
    token.is_any_word() && is_one_of(TYPE_WORDS.as_slice(), token.bytes())
}

/// Whether the token is the word of a storage class.
fn is_storage_word(token: &Terminal<'_>) -> bool
    ensures { result ≡ is_among storage_words token.now }
{
    token.is_any_word() && is_one_of(STORAGE_WORDS.as_slice(), token.bytes())
}
