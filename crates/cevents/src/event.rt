use cbase::{BasicType, BinaryOp, Storage, UnaryOp};

/// A part of a tree that a reader has read to its end, with the numbers of the tokens of its row that it stands at.
///
/// The number of a token is how many tokens stand before it in the row. The row has no tokens that are passed over, so it is
/// not the token's number in the text. Of the numbers here `stars` alone is none of a token: it says how many `*` a
/// declarator has. Each has 32 bits, so that rows of events take little memory.
///
/// Each takes the parts that it is made of from a stack, the last one first, and leaves what it makes there. So the
/// events of a tree are its parts in the order in which they end, and expressions have their numbers in that order.
#[derive(Clone, Copy)]
pub enum Event {
    /// An identifier as an expression.
    Name {
        /// The identifier.
        at: u32,
    },
    /// A constant.
    Constant {
        /// The constant.
        at: u32,
    },
    /// A call of `__assert_fail`, whose arguments leave no trace.
    AssertFail {
        /// The word `__assert_fail`.
        at: u32,
    },
    /// A prefix operator: of the expression on top.
    Unary {
        /// The operator.
        op: UnaryOp,
        /// Its token.
        at: u32,
    },
    /// `++` or `--`, before or behind the expression on top.
    Count {
        /// Whether it is `++`.
        up: bool,
        /// Whether it stands behind the expression.
        after: bool,
        /// The `++` or `--`.
        at: u32,
    },
    /// `sizeof` of the expression on top.
    SizeOf {
        /// The word `sizeof`.
        at: u32,
    },
    /// `sizeof` of the type's name on top.
    SizeOfType {
        /// The word `sizeof`.
        at: u32,
    },
    /// `__builtin_offsetof`: of the path on top in the type's name below it.
    OffsetOf {
        /// The word `__builtin_offsetof`.
        at: u32,
    },
    /// A cast: of the expression on top to the type's name below it.
    Cast {
        /// The `(` before the type's name.
        at: u32,
    },
    /// The expression on top as an index of that below it.
    Index {
        /// The `[`.
        at: u32,
    },
    /// A member of the expression on top, through a pointer or not.
    Member {
        /// Whether it is reached through a pointer, by `->`.
        through: bool,
        /// The `.` or `->`.
        at: u32,
        /// The member's name.
        name: u32,
    },
    /// A call with the arguments on top: of the expression below them.
    Call {
        /// The first word of the expression that is called, or its first token where it has no word.
        at: u32,
    },
    /// The statements on top as a statement expression.
    Inner {
        /// The `(` before the block.
        at: u32,
        /// The `}` of the block.
        close: u32,
    },
    /// A binary operator: of the expression on top, to its right, and that below it.
    Binary {
        /// The operator, which may be the comma.
        op: BinaryOp,
        /// Its token.
        at: u32,
    },
    /// An assignment, with what it does before its store: of the expression on top, to its right, and that below it.
    Assign {
        /// What is done before the store: nothing for `=`.
        op: Option<BinaryOp>,
        /// The token of the assignment operator.
        at: u32,
    },
    /// `?` and `:` between the three expressions on top.
    Choose {
        /// The `?`.
        at: u32,
    },
    /// No arguments yet.
    NoArguments,
    /// The expression on top as one more argument.
    Argument,
    /// A path with one member.
    Path {
        /// The member's name.
        name: u32,
    },
    /// One more member of the path on top.
    PathMember {
        /// The member's name.
        name: u32,
    },
    /// The expression on top as one more index of the path below it.
    PathIndex,
    /// A basic type.
    Basic {
        /// The type.
        basic: BasicType,
    },
    /// A type that a typedef's name stands for.
    Named {
        /// The typedef's name.
        at: u32,
    },
    /// A struct by its tag alone.
    StructTag {
        /// The tag.
        tag: u32,
    },
    /// An enum by its tag alone.
    EnumTag {
        /// The tag.
        tag: u32,
    },
    /// A struct with the fields on top, with a tag or without.
    Struct {
        /// The tag.
        tag: Option<u32>,
    },
    /// An enum with the enumerators on top, with a tag or without.
    Enum {
        /// The tag.
        tag: Option<u32>,
    },
    /// `typeof` of the expression on top.
    TypeOfExpr,
    /// `typeof` of the type's name on top.
    TypeOfType,
    /// No sizes yet.
    NoSizes,
    /// One more size, which is left out.
    OpenSize,
    /// The expression on top as one more size.
    Size,
    /// The name of a type: of the sizes on top and the type below them.
    TypeName {
        /// How many `*` stand behind the type.
        stars: u32,
    },
    /// No declarators of fields yet.
    NoFieldNames,
    /// One more field, with the sizes on top.
    Field {
        /// The field's name.
        name: u32,
        /// How many `*` stand before the name.
        stars: u32,
    },
    /// One more field, with the expression on top as its number of bits and the sizes below it.
    BitField {
        /// The field's name.
        name: u32,
        /// How many `*` stand before the name.
        stars: u32,
    },
    /// One more field without a name, with the expression on top as its number of bits.
    Padding {
        /// The `:` before the number of bits.
        colon: u32,
    },
    /// No declarations of fields yet.
    NoFields,
    /// One more declaration of fields: of the declarators on top and the type below them.
    Fields,
    /// No enumerators yet.
    NoEnumerators,
    /// One more enumerator without a value.
    Enumerator {
        /// The constant's name.
        name: u32,
    },
    /// One more enumerator with the expression on top as its value.
    EnumeratorValue {
        /// The constant's name.
        name: u32,
    },
    /// No parameters yet.
    NoParameters,
    /// One more parameter, with a name or without: of the sizes on top and the type below them.
    Parameter {
        /// The parameter's name.
        name: Option<u32>,
        /// How many `*` stand behind the type.
        stars: u32,
    },
    /// No declarators yet.
    NoDeclarators,
    /// One more object, with the sizes on top.
    Object {
        /// The object's name.
        name: u32,
        /// How many `*` stand before the name.
        stars: u32,
    },
    /// One more object, with the initialiser on top and the sizes below it.
    InitializedObject {
        /// The object's name.
        name: u32,
        /// How many `*` stand before the name.
        stars: u32,
    },
    /// One more function, with the parameters on top.
    Function {
        /// The function's name.
        name: u32,
        /// How many `*` stand before the name.
        stars: u32,
    },
    /// A declaration: of the declarators on top and the type below them.
    Declaration {
        /// The storage class, `Plain` where none is named.
        storage: Storage,
    },
    /// The expression on top as an initialiser.
    Value {
        /// The token behind it.
        after: u32,
    },
    /// No parts of an initialiser yet.
    NoParts,
    /// The initialiser on top as one more part, for a member or for the next one.
    Part {
        /// The member's name, where one is named.
        member: Option<u32>,
    },
    /// The parts on top as an initialiser in braces.
    Braces,
    /// No expression, where there may be one.
    NoExpression,
    /// The expression on top, where there may be one.
    OneExpression,
    /// No statements yet.
    NoStatements,
    /// The statement on top as one more of the statements below it.
    Statement,
    /// The declaration on top as a statement.
    Declare {
        /// Its first token.
        first: u32,
        /// Its last token, the `;`.
        last: u32,
    },
    /// The expression that may be left out on top as a statement.
    Eval {
        /// Its first token.
        first: u32,
        /// Its last token, the `;`.
        last: u32,
    },
    /// The statements on top as a block.
    Block {
        /// The `{`.
        first: u32,
        /// The `}`.
        last: u32,
    },
    /// `if` with the statement on top and the test below it.
    If {
        /// The word `if`.
        first: u32,
        /// The `)` behind the test.
        close: u32,
    },
    /// `if` with the two statements on top and the test below them.
    IfElse {
        /// The word `if`.
        first: u32,
        /// The `)` behind the test.
        close: u32,
    },
    /// `while` with the statement on top and the test below it.
    While {
        /// The word `while`.
        first: u32,
        /// The `)` behind the test.
        close: u32,
    },
    /// `do` with the test on top and the statement below it.
    Do {
        /// The word `do`.
        first: u32,
        /// The `)` behind the test.
        close: u32,
        /// Its last token, the `;`.
        last: u32,
    },
    /// `for` with the statement on top, the two expressions that may be left out below it, and the clause below them.
    For {
        /// The word `for`.
        first: u32,
        /// The `;` between the two expressions that may be left out.
        semicolon: u32,
        /// The `)` behind them.
        close: u32,
    },
    /// `break`.
    Break {
        /// The word `break`.
        first: u32,
        /// The `;`.
        last: u32,
    },
    /// `continue`.
    Continue {
        /// The word `continue`.
        first: u32,
        /// The `;`.
        last: u32,
    },
    /// `return` of the expression on top, which may be left out.
    Return {
        /// The word `return`.
        first: u32,
        /// The `;`.
        last: u32,
    },
    /// A `;` as an item of a file.
    EmptyItem,
    /// The declaration on top as an item of a file.
    DeclareItem,
    /// A function's definition, up to its last `}`: of the statements on top, its one declarator and its type below them.
    FunctionItem {
        /// The storage class, `Plain` where none is named.
        storage: Storage,
        /// The last `}`.
        close: u32,
    },
}
