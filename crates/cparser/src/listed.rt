/// What stands in a list, with a comma between each and the next.
#[derive(Clone, Copy)]
pub enum Listed {
    /// Arguments of a call (C11 6.5.2).
    Argument,
    /// The declarators of fields (C11 6.7.2.1).
    FieldName,
    /// The constants of an enumeration (C11 6.7.2.2).
    Enumerator,
    /// The parameters of a function (C11 6.7.6.3).
    Parameter,
    /// The parts of an initialiser in braces (C11 6.7.9).
    InitPart,
}
