use cbase::{List, Text};

/// The names with linkage that a text defines, in order of the text. A name that is defined twice stands there twice.
#[derive(Drop)]
pub struct Definitions {
    /// The names that it defines with a body: functions (C11 6.9.1).
    pub bodied: List<Text>,
    /// All names that it defines: those, and objects with an initialiser or by a tentative definition (C11 6.9.2).
    pub defined: List<Text>,
}
