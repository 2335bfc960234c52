use crate::list::List;
use crate::place::Place;
use crate::tree::expr::Expr;
use crate::tree::identifier::Identifier;

/// An initialiser (C11 6.7.9).
#[derive(Drop)]
#[cycle(tree)]
pub enum Init {
    /// A value.
    Value {
        /// The value, a full expression (C11 6.8p4).
        value: Expr,
        /// The place of the token behind it: a `,`, the `;` of the declaration, or the `}` of the braces around it.
        after: Place,
    },
    /// Parts in braces, in order.
    Braces(List<InitPart>),
}

/// One part of an initialiser in braces (C11 6.7.9).
#[derive(Drop)]
#[cycle(tree)]
pub struct InitPart {
    /// The member that a designator `.name =` names, with the name's place, where there is one.
    pub member: Option<Identifier>,
    /// What it is set to.
    pub init: Init,
}
