use crate::ctype::CType;
use crate::list::List;
use crate::text::Text;

/// A field of a struct.
#[derive(Drop)]
pub struct Field {
    /// Its name.
    pub name: Text,
    /// Its type.
    pub ctype: CType,
}

/// A struct, as far as the text has defined it: a type names one by its place in the list of a program's structs.
///
/// Definitions speak of such lists, and no code makes one.
#[derive(Drop)]
pub struct StructDef {
    /// Its tag, empty where it has none.
    pub name: Text,
    /// Whether its fields were given.
    pub complete: bool,
    /// Its fields, in the order in which they lie in memory.
    pub fields: List<Field>,
}
