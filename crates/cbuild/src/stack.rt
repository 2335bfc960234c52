ghost use Rattle.std.specs.Prelude.{◌≡◌, ◌↔◌, [], ◌∷◌, IsTrue, OnOk, MatchOption};
ghost use Rattle.cevents.specs.Workshop.{only};

use cbase::NoMemory;
use cevents::Piece;
use std::alloc::Global;
use std::marker::Model;

/// The pieces that are made so far.
///
/// It is seen as the list of them, the last one first.
#[derive(Drop)]
pub(crate) struct Stack {
    items: Vec<Piece>,
}

impl Model for Stack {
    ghost use Rattle.std.specs.Prelude.{List, reverse};
    ghost use Rattle.cevents.specs.declared.piece.Piece.{Piece};
    ghost use Rattle.cbase.specs.contracts.tree.expr.ExprForm as cexprform;
    ghost use Rattle.cbase.specs.contracts.tree.expr.Expr as cexpr;
    ghost use Rattle.cbase.specs.contracts.tree.expr.Part as cpart;
    ghost use Rattle.cbase.specs.contracts.tree.spec.TypeSpec as ctypespec;
    ghost use Rattle.cbase.specs.contracts.tree.spec.FieldDecl as cfielddecl;
    ghost use Rattle.cbase.specs.contracts.tree.spec.FieldName as cfieldname;
    ghost use Rattle.cbase.specs.contracts.tree.spec.Enumerator as cenumerator;
    ghost use Rattle.cbase.specs.contracts.tree.decl.TypeName as ctypename;
    ghost use Rattle.cbase.specs.contracts.tree.decl.Param as cparam;
    ghost use Rattle.cbase.specs.contracts.tree.decl.Declared as cdeclared;
    ghost use Rattle.cbase.specs.contracts.tree.decl.Decl as cdecl;
    ghost use Rattle.cbase.specs.contracts.tree.init.Init as cinit;
    ghost use Rattle.cbase.specs.contracts.tree.init.InitPart as cinitpart;
    ghost use Rattle.cbase.specs.contracts.tree.stmt.Stmt as cstmt;
    ghost use Rattle.cbase.specs.contracts.tree.stmt.StmtForm as cstmtform;
    ghost use Rattle.std.specs.Coded.{codes};

    ghost Value = { List Piece };

    ghost coded = { Prim.hlevel (codes, cexprform.the_row.coded, cexpr.the_row.coded, cpart.the_row.coded, ctypespec.the_row.coded, cfielddecl.the_row.coded, cfieldname.the_row.coded, cenumerator.the_row.coded, ctypename.the_row.coded, cparam.the_row.coded, cdeclared.the_row.coded, cdecl.the_row.coded, cinit.the_row.coded, cinitpart.the_row.coded, cstmt.the_row.coded, cstmtform.the_row.coded) };

    ghost view = { λ stack. reverse stack.items.items };
}

impl Stack {
    /// No pieces. It takes no memory.
    pub(crate) fn new(alloc: Global) -> Stack
        ensures { result ≡ [] }
    {
        Stack {
            items: Vec::new(alloc),
        }
    }

    /// Puts a piece on top.
    #[tactic(auto, using(cgrammar::proofs::Stacks::pushed))]
    pub(crate) fn push(&mut self, piece: Piece) -> Result<(), NoMemory>
        ensures { OnOk result (self.new ≡ piece ∷ self.old) }
    {
        self.items.push(piece)?;
        Ok(())
    }

    /// Takes the piece on top, where there is one.
    #[tactic(auto, using(cgrammar::proofs::Stacks::popped))]
    pub(crate) fn pop(&mut self) -> Option<Piece>
        ensures { MatchOption result ((self.old ≡ []) × (self.new ≡ [])) (λ piece. self.old ≡ piece ∷ self.new) }
    {
        self.items.pop()
    }

    /// Whether there is no piece.
    pub(crate) fn is_empty(&self) -> bool
        ensures { IsTrue result ↔ (self.now ≡ []) }
    {
        self.items.is_empty()
    }

    /// Takes the piece on top, and gives it where it is the only one.
    pub(crate) fn pop_only(&mut self) -> Option<Piece>
        ensures { result ≡ only self.old }
    {
        let piece = self.pop();
        if self.is_empty() {
            return piece;
        }
        drop(piece);
        None
    }
}
