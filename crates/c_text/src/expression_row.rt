use typing::environment::Entity;

/// What typing hands on of an expression.
#[derive(Clone, Copy)]
pub(crate) struct ExpressionRow {
    /// Its number.
    pub number: u32,
    /// The number of its own type, before an array becomes a pointer (C11 6.3.2.1p3).
    pub ctype: u32,
    /// What it stands for, where it is a name.
    pub stands: Option<Entity>,
    /// Its value as the bits of its type, where it is an integer constant expression (C11 6.6p6).
    pub value: Option<u64>,
}
