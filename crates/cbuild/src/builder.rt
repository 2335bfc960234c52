ghost use Rattle.std.specs.Prelude.{◌≡◌, [], IfOk};
ghost use Rattle.cbuild.specs.ItemsMade.{item_in};
ghost use Rattle.cevents.specs.declared.piece.Piece.TheVariants as Piece;
ghost use Rattle.cevents.specs.Workshop.{expr_of, expressed, kind_in, left_by, only, pushed, start, stated, statements_of};

use crate::stack::Stack;
use cbase::{Boxed, Expr, ExprForm, Init, Item, List, NoMemory, Place, Stmt, StmtForm, TypeSpec};
use cevents::Piece;
use std::alloc::Global;
use std::marker::Model;

/// The pieces of trees that are made so far, and how many expressions are among them and in them.
///
/// Each of its functions answers whether the event makes something. Where memory is wanting nothing is said of what is
/// left.
#[derive(Drop)]
pub(crate) struct Builder {
    /// Where its memory comes from. It is not seen.
    pub(crate) alloc: Global,
    /// The number of the next expression: how many end before it.
    pub(crate) count: u32,
    /// The pieces, of which an event takes the ones on top.
    pub(crate) pieces: Stack,
}

impl Model for Builder {
    ghost use Rattle.cevents.specs.Workshop.{Workshop};
    ghost use Rattle.cbase.specs.contracts.tree.expr.ExprForm as cexprform;
    ghost use Rattle.cbase.specs.contracts.tree.expr.Expr as cexpr;
    ghost use Rattle.cbase.specs.contracts.tree.expr.Part as cpart;
    ghost use Rattle.cbase.specs.contracts.tree.spec.TypeSpec as ctypespec;
    ghost use Rattle.cbase.specs.contracts.tree.spec.FieldDecl as cfielddecl;
    ghost use Rattle.cbase.specs.contracts.tree.spec.FieldName as cfieldname;
    ghost use Rattle.cbase.specs.contracts.tree.spec.Enumerator as cenumerator;
    ghost use Rattle.cbase.specs.contracts.tree.decl.TypeName as ctypename;
    ghost use Rattle.cbase.specs.contracts.tree.decl.Param as cparam;
    ghost use Rattle.cbase.specs.contracts.tree.decl.Declared as cdeclared;
    ghost use Rattle.cbase.specs.contracts.tree.decl.Decl as cdecl;
    ghost use Rattle.cbase.specs.contracts.tree.init.Init as cinit;
    ghost use Rattle.cbase.specs.contracts.tree.init.InitPart as cinitpart;
    ghost use Rattle.cbase.specs.contracts.tree.stmt.Stmt as cstmt;
    ghost use Rattle.cbase.specs.contracts.tree.stmt.StmtForm as cstmtform;
    ghost use Rattle.std.specs.Coded.{codes};

    ghost Value = { Workshop };

    ghost coded = { Prim.hlevel (codes, cexprform.the_row.coded, cexpr.the_row.coded, cpart.the_row.coded, ctypespec.the_row.coded, cfielddecl.the_row.coded, cfieldname.the_row.coded, cenumerator.the_row.coded, ctypename.the_row.coded, cparam.the_row.coded, cdeclared.the_row.coded, cdecl.the_row.coded, cinit.the_row.coded, cinitpart.the_row.coded, cstmt.the_row.coded, cstmtform.the_row.coded) };

    ghost view = { λ builder. record { count = builder.count; pieces = builder.pieces } };
}

impl Builder {
    /// Nothing is made yet.
    pub(crate) fn new(alloc: Global) -> Builder
        ensures { result ≡ start }
    {
        Builder {
            alloc,
            count: 0,
            pieces: Stack::new(alloc),
        }
    }

    /// Nothing is made yet, where so many expressions end before.
    pub(crate) fn beginning(alloc: Global, count: u32) -> Builder
        ensures { result ≡ record { count = count; pieces = [] } }
    {
        Builder {
            alloc,
            count,
            pieces: Stack::new(alloc),
        }
    }

    /// Puts a piece on top.
    pub(crate) fn put(&mut self, piece: Piece) -> Result<bool, NoMemory>
        ensures { IfOk result (λ made. left_by made self.new ≡ pushed self.old.count piece self.old.pieces) }
    {
        self.pieces.push(piece)?;
        Ok(true)
    }

    /// Puts an expression on top, with the next number.
    pub(crate) fn express(&mut self, place: Place, form: ExprForm) -> Result<bool, NoMemory>
        ensures { IfOk result (λ made. left_by made self.new ≡ expressed self.old.count place form self.old.pieces) }
    {
        let number = self.count;
        let tree = Boxed::new(
            self.alloc,
            Expr {
                number,
                place,
                form,
            },
        )?;
        self.pieces.push(Piece::Expr(tree))?;
        if number == u32::MAX {
            return Err(NoMemory);
        }
        self.count = number + 1;
        Ok(true)
    }

    /// Puts a statement on top.
    pub(crate) fn state(
        &mut self,
        place: Place,
        after: Place,
        form: StmtForm,
    ) -> Result<bool, NoMemory>
        ensures { IfOk result (λ made. left_by made self.new ≡ stated self.old.count place after form self.old.pieces) }
    {
        let tree = Boxed::new(self.alloc, Stmt { place, after, form })?;
        self.pieces.push(Piece::Statement(tree))?;
        Ok(true)
    }

    /// Puts a type on top.
    pub(crate) fn put_type(&mut self, tree: TypeSpec) -> Result<bool, NoMemory>
        ensures { IfOk result (λ made. left_by made self.new ≡ pushed self.old.count (Piece.Type tree) self.old.pieces) }
    {
        let tree = Boxed::new(self.alloc, tree)?;
        self.put(Piece::Type(tree))
    }

    /// Puts an initialiser on top.
    pub(crate) fn put_init(&mut self, tree: Init) -> Result<bool, NoMemory>
        ensures { IfOk result (λ made. left_by made self.new ≡ pushed self.old.count (Piece.Init tree) self.old.pieces) }
    {
        let tree = Boxed::new(self.alloc, tree)?;
        self.put(Piece::Init(tree))
    }

    /// Puts an item of a file on top.
    pub(crate) fn put_item(&mut self, tree: Item) -> Result<bool, NoMemory>
        ensures { IfOk result (λ made. left_by made self.new ≡ pushed self.old.count (Piece.Item tree) self.old.pieces) }
    {
        let tree = Boxed::new(self.alloc, tree)?;
        self.put(Piece::Item(tree))
    }

    /// Takes the piece on top, and gives it where it is the only one and an expression.
    pub(crate) fn only_expr(&mut self) -> Option<Expr>
        ensures { result ≡ kind_in expr_of (only self.old.pieces) }
    {
        match self.pieces.pop_only() {
            Some(Piece::Expr(tree)) => Some(tree.into_inner()),
            other => {
                drop(other);
                None
            }
        }
    }

    /// Takes the piece on top, and gives it where it is the only one and statements.
    pub(crate) fn only_statements(&mut self) -> Option<List<Stmt>>
        ensures { result ≡ kind_in statements_of (only self.old.pieces) }
    {
        match self.pieces.pop_only() {
            Some(Piece::Statements(tree)) => Some(tree),
            other => {
                drop(other);
                None
            }
        }
    }

    /// Takes the piece on top, and gives it where it is the only one and an item.
    pub(crate) fn only_item(&mut self) -> Option<Item>
        ensures { result ≡ item_in (only self.old.pieces) }
    {
        match self.pieces.pop_only() {
            Some(Piece::Item(tree)) => Some(tree.into_inner()),
            other => {
                drop(other);
                None
            }
        }
    }
}
