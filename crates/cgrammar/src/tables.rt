//! Tables of short texts, each with the tree that stands at its front, or with none where none does.

ghost use Rattle.cgrammar.specs.BinaryRows.{BinaryRows};
ghost use Rattle.cgrammar.specs.CastRows.{CastRows};
ghost use Rattle.cgrammar.specs.DeclarationRows.{DeclarationRows};
ghost use Rattle.cgrammar.specs.FrontRows.{FrontRows};
ghost use Rattle.cgrammar.specs.InnerRows.{InnerRows};
ghost use Rattle.cgrammar.specs.OperandRows.{OperandRows};
ghost use Rattle.cgrammar.specs.ScopeRows.{ScopeRows};
ghost use Rattle.cgrammar.specs.StatementRows.{StatementRows};
ghost use Rattle.cgrammar.specs.TypeRows.{TypeRows};

/// Texts with the longest expression at their front, of at most twelve levels, and texts at whose front none stands:
/// operators by level and side, where an expression stops, operands, casts and sizes, types, and blocks in expressions
/// (C11 6.5, 6.7.7).
#[tactic(auto, using(crate::proofs::BinaryRowsRead::binary_rows, crate::proofs::FrontRowsRead::front_rows, crate::proofs::OperandRowsRead::operand_rows, crate::proofs::CastRowsRead::cast_rows, crate::proofs::TypeRowsRead::type_rows, crate::proofs::InnerRowsRead::inner_rows))]
pub fn tables_of_expressions()
    ensures operators { BinaryRows }
    ensures fronts { FrontRows }
    ensures operands { OperandRows }
    ensures casts { CastRows }
    ensures types { TypeRows }
    ensures blocks { InnerRows }
{}

/// Texts with the block at their front, of at most twelve levels, and texts at whose front none stands: declarations,
/// statements, and names that hide typedefs (C11 6.2.1, 6.7, 6.8).
#[tactic(auto, using(crate::proofs::DeclarationRowsRead::declaration_rows, crate::proofs::StatementRowsRead::statement_rows, crate::proofs::ScopeRowsRead::scope_rows))]
pub fn tables_of_blocks()
    ensures declarations { DeclarationRows }
    ensures statements { StatementRows }
    ensures scopes { ScopeRows }
{}
