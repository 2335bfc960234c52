ghost use Rattle.std.specs.Prelude.{◌≡◌};
ghost use Rattle.cevents.specs.Workshop.{below, top_of, single, declarator_of, expr_of, arguments_of, path_of, type_of, sizes_of, type_name_of, field_names_of, fields_of, enumerators_of, parameters_of, declarators_of, declaration_of, init_of, parts_of, maybe_of, statement_of, statements_of};

use crate::builder::Builder;
use cbase::{
    Boxed, Decl, Declared, Enumerator, Expr, FieldDecl, FieldName, Init, InitPart, List, Param,
    Part, Stmt, TypeName, TypeSpec,
};
use cevents::Piece;

impl Builder {
    /// Takes the expression on top. Whatever stands there is gone.
    pub(crate) fn pop_expr(&mut self) -> Option<Boxed<Expr>>
        ensures tree { result ≡ top_of expr_of self.old.pieces }
        ensures rest { self.new ≡ record { count = self.old.count; pieces = below self.old.pieces } }
    {
        match self.pieces.pop() {
            Some(Piece::Expr(tree)) => Some(tree),
            other => {
                drop(other);
                None
            }
        }
    }

    /// Takes the arguments on top. Whatever stands there is gone.
    pub(crate) fn pop_arguments(&mut self) -> Option<List<Expr>>
        ensures tree { result ≡ top_of arguments_of self.old.pieces }
        ensures rest { self.new ≡ record { count = self.old.count; pieces = below self.old.pieces } }
    {
        match self.pieces.pop() {
            Some(Piece::Arguments(tree)) => Some(tree),
            other => {
                drop(other);
                None
            }
        }
    }

    /// Takes the path on top. Whatever stands there is gone.
    pub(crate) fn pop_path(&mut self) -> Option<List<Part>>
        ensures tree { result ≡ top_of path_of self.old.pieces }
        ensures rest { self.new ≡ record { count = self.old.count; pieces = below self.old.pieces } }
    {
        match self.pieces.pop() {
            Some(Piece::Path(tree)) => Some(tree),
            other => {
                drop(other);
                None
            }
        }
    }

    /// Takes the type on top. Whatever stands there is gone.
    pub(crate) fn pop_type(&mut self) -> Option<TypeSpec>
        ensures tree { result ≡ top_of type_of self.old.pieces }
        ensures rest { self.new ≡ record { count = self.old.count; pieces = below self.old.pieces } }
    {
        match self.pieces.pop() {
            Some(Piece::Type(tree)) => Some(tree.into_inner()),
            other => {
                drop(other);
                None
            }
        }
    }

    /// Takes the sizes on top. Whatever stands there is gone.
    pub(crate) fn pop_sizes(&mut self) -> Option<List<Option<Expr>>>
        ensures tree { result ≡ top_of sizes_of self.old.pieces }
        ensures rest { self.new ≡ record { count = self.old.count; pieces = below self.old.pieces } }
    {
        match self.pieces.pop() {
            Some(Piece::Sizes(tree)) => Some(tree),
            other => {
                drop(other);
                None
            }
        }
    }

    /// Takes the name of a type on top. Whatever stands there is gone.
    pub(crate) fn pop_type_name(&mut self) -> Option<Boxed<TypeName>>
        ensures tree { result ≡ top_of type_name_of self.old.pieces }
        ensures rest { self.new ≡ record { count = self.old.count; pieces = below self.old.pieces } }
    {
        match self.pieces.pop() {
            Some(Piece::TypeName(tree)) => Some(tree),
            other => {
                drop(other);
                None
            }
        }
    }

    /// Takes the declarators of fields on top. Whatever stands there is gone.
    pub(crate) fn pop_field_names(&mut self) -> Option<List<FieldName>>
        ensures tree { result ≡ top_of field_names_of self.old.pieces }
        ensures rest { self.new ≡ record { count = self.old.count; pieces = below self.old.pieces } }
    {
        match self.pieces.pop() {
            Some(Piece::FieldNames(tree)) => Some(tree),
            other => {
                drop(other);
                None
            }
        }
    }

    /// Takes the declarations of fields on top. Whatever stands there is gone.
    pub(crate) fn pop_fields(&mut self) -> Option<List<FieldDecl>>
        ensures tree { result ≡ top_of fields_of self.old.pieces }
        ensures rest { self.new ≡ record { count = self.old.count; pieces = below self.old.pieces } }
    {
        match self.pieces.pop() {
            Some(Piece::Fields(tree)) => Some(tree),
            other => {
                drop(other);
                None
            }
        }
    }

    /// Takes the enumerators on top. Whatever stands there is gone.
    pub(crate) fn pop_enumerators(&mut self) -> Option<List<Enumerator>>
        ensures tree { result ≡ top_of enumerators_of self.old.pieces }
        ensures rest { self.new ≡ record { count = self.old.count; pieces = below self.old.pieces } }
    {
        match self.pieces.pop() {
            Some(Piece::Enumerators(tree)) => Some(tree),
            other => {
                drop(other);
                None
            }
        }
    }

    /// Takes the parameters on top. Whatever stands there is gone.
    pub(crate) fn pop_parameters(&mut self) -> Option<List<Param>>
        ensures tree { result ≡ top_of parameters_of self.old.pieces }
        ensures rest { self.new ≡ record { count = self.old.count; pieces = below self.old.pieces } }
    {
        match self.pieces.pop() {
            Some(Piece::Parameters(tree)) => Some(tree),
            other => {
                drop(other);
                None
            }
        }
    }

    /// Takes the declarators on top. Whatever stands there is gone.
    pub(crate) fn pop_declarators(&mut self) -> Option<List<Declared>>
        ensures tree { result ≡ top_of declarators_of self.old.pieces }
        ensures rest { self.new ≡ record { count = self.old.count; pieces = below self.old.pieces } }
    {
        match self.pieces.pop() {
            Some(Piece::Declarators(tree)) => Some(tree),
            other => {
                drop(other);
                None
            }
        }
    }

    /// Takes the declaration on top. Whatever stands there is gone.
    pub(crate) fn pop_declaration(&mut self) -> Option<Boxed<Decl>>
        ensures tree { result ≡ top_of declaration_of self.old.pieces }
        ensures rest { self.new ≡ record { count = self.old.count; pieces = below self.old.pieces } }
    {
        match self.pieces.pop() {
            Some(Piece::Declaration(tree)) => Some(tree),
            other => {
                drop(other);
                None
            }
        }
    }

    /// Takes the initialiser on top. Whatever stands there is gone.
    pub(crate) fn pop_init(&mut self) -> Option<Init>
        ensures tree { result ≡ top_of init_of self.old.pieces }
        ensures rest { self.new ≡ record { count = self.old.count; pieces = below self.old.pieces } }
    {
        match self.pieces.pop() {
            Some(Piece::Init(tree)) => Some(tree.into_inner()),
            other => {
                drop(other);
                None
            }
        }
    }

    /// Takes the parts of an initialiser on top. Whatever stands there is gone.
    pub(crate) fn pop_parts(&mut self) -> Option<List<InitPart>>
        ensures tree { result ≡ top_of parts_of self.old.pieces }
        ensures rest { self.new ≡ record { count = self.old.count; pieces = below self.old.pieces } }
    {
        match self.pieces.pop() {
            Some(Piece::Parts(tree)) => Some(tree),
            other => {
                drop(other);
                None
            }
        }
    }

    /// Takes the expression that may be left out on top. Whatever stands there is gone.
    pub(crate) fn pop_maybe(&mut self) -> Option<Option<Boxed<Expr>>>
        ensures tree { result ≡ top_of maybe_of self.old.pieces }
        ensures rest { self.new ≡ record { count = self.old.count; pieces = below self.old.pieces } }
    {
        match self.pieces.pop() {
            Some(Piece::Maybe(tree)) => Some(tree),
            other => {
                drop(other);
                None
            }
        }
    }

    /// Takes the statement on top. Whatever stands there is gone.
    pub(crate) fn pop_statement(&mut self) -> Option<Boxed<Stmt>>
        ensures tree { result ≡ top_of statement_of self.old.pieces }
        ensures rest { self.new ≡ record { count = self.old.count; pieces = below self.old.pieces } }
    {
        match self.pieces.pop() {
            Some(Piece::Statement(tree)) => Some(tree),
            other => {
                drop(other);
                None
            }
        }
    }

    /// Takes the statements on top. Whatever stands there is gone.
    pub(crate) fn pop_statements(&mut self) -> Option<List<Stmt>>
        ensures tree { result ≡ top_of statements_of self.old.pieces }
        ensures rest { self.new ≡ record { count = self.old.count; pieces = below self.old.pieces } }
    {
        match self.pieces.pop() {
            Some(Piece::Statements(tree)) => Some(tree),
            other => {
                drop(other);
                None
            }
        }
    }

    /// Takes the declarators on top, which have to be one declarator. Whatever stands there is gone.
    pub(crate) fn pop_declarator(&mut self) -> Option<Declared>
        ensures tree { result ≡ top_of declarator_of self.old.pieces }
        ensures rest { self.new ≡ record { count = self.old.count; pieces = below self.old.pieces } }
    {
        single(self.pop_declarators()?)
    }
}

/// The only item of a list, where it has one item.
fn single<T: Drop>(list: List<T>) -> Option<T>
    ensures { result ≡ single list }
{
    let mut items = list.into_vec();
    let item = items.pop()?;
    if items.is_empty() { Some(item) } else { None }
}
