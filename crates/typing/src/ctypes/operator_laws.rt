//! Laws of the tables. Each is the contract of a function that does nothing.
ghost use Rattle.std.specs.Prelude.{◌≡◌, ℕ, Bool, List, true};
ghost use Rattle.cbase.specs.declared.ctype.CType.{CType};
ghost use Rattle.cbase.specs.declared.structs.StructDef.{StructDef};
ghost use Rattle.typing.specs.ctypes.Table.{AreApart};
ghost use Rattle.typing.specs.declared.ctypes.binary.Group.{Group};
ghost use Rattle.typing.specs.declared.ctypes.found.Broken.{Broken};
ghost use Rattle.typing.specs.declared.ctypes.found.Outcome.{Outcome};
ghost use Rattle.typing.specs.declared.ctypes.kind.IntegerType.{IntegerType};
ghost use Rattle.typing.specs.ctypes.Assigning.{assignment_demands, update_demands};
ghost use Rattle.typing.specs.ctypes.Binary.{operated};
ghost use Rattle.typing.specs.ctypes.Broken.{Judgement, Demand, IsJudged, all_broken, judged, AreInOrder, IsFoundBy};
ghost use Rattle.typing.specs.ctypes.Choosing.{joined};
ghost use Rattle.typing.specs.ctypes.Integers.{promoted, common, type_of_integer};
ghost use Rattle.typing.specs.ctypes.Kinds.{Kind};
ghost use Rattle.typing.specs.ctypes.Laws.{AreKinds, AreTargets, AreMeasured};
ghost use Rattle.typing.specs.ctypes.Operands.{Operand, Answers};
ghost use Rattle.typing.specs.ctypes.Ranks.{promotions_agree, conversions_agree};
ghost use Rattle.typing.specs.ctypes.Unary.{count_demands};

/// What operators ask of each type, in one equation for each form of types.
pub fn types_have_kinds()
    ensures kinds { (structs : List StructDef) → AreKinds structs }
    ensures targets { (structs : List StructDef) → AreTargets structs }
{}

/// A type that is promoted stays so, and the usual arithmetic conversions do not ask which operand is the left one.
///
/// Of one type they give the promoted type, and so does `?:`.
#[tactic(auto, using(crate::proofs::ctypes::Promotions::promoted_promoted, crate::proofs::ctypes::Promotions::common_commutes, crate::proofs::ctypes::Promotions::common_self, crate::proofs::ctypes::Promotions::promoted_common, crate::proofs::ctypes::Promotions::joined_self))]
pub fn conversions_are_settled()
    ensures promotion { (t : IntegerType) → promoted (promoted t) ≡ promoted t }
    ensures symmetric { (left right : IntegerType) → type_of_integer (common left right) ≡ type_of_integer (common right left) }
    ensures itself { (t : IntegerType) → type_of_integer (common t t) ≡ type_of_integer (promoted t) }
    ensures choice { (t : IntegerType) (first second : Bool) → joined (Kind.Integer t) first (Kind.Integer t) second ≡ Judgement.Typed (type_of_integer (promoted t)) }
    ensures again { (left right : IntegerType) → type_of_integer (promoted (common left right)) ≡ type_of_integer (common left right) }
{}

/// By both data layouts the promotions and conversions by bytes are those that the standard states by ranks.
#[tactic(auto, using(crate::proofs::ctypes::Promotions::promotions, crate::proofs::ctypes::Promotions::conversions))]
pub fn bytes_say_what_ranks_say()
    ensures promotions { promotions_agree ≡ true }
    ensures conversions { conversions_agree ≡ true }
{}

/// What is found at a node is one: the least that is broken, or the type.
#[tactic(auto, using(crate::proofs::ctypes::Judging::one_judgement, crate::proofs::ctypes::Judging::judged_is))]
pub fn one_thing_is_found()
    ensures one { (broken : List Broken) (t : CType) (first second : Judgement) → IsJudged broken t first → IsJudged broken t second → first ≡ second }
    ensures first { (demands : List Demand) (t : CType) → AreInOrder demands → IsJudged (all_broken demands) t (judged demands t) }
{}

/// The demands of `++`, `=` and `op=` stand in their order, so that the first that does not hold is the least.
///
/// What is broken at a binary operator comes before what `op=` asks beside it, or is the first of it.
#[tactic(auto, using(crate::proofs::ctypes::Early::operated_early, crate::proofs::ctypes::Judging::count_ordered, crate::proofs::ctypes::Judging::assignment_ordered, crate::proofs::ctypes::Judging::update_ordered))]
pub fn demands_stand_in_order()
    ensures count { (operand : Operand) → AreInOrder (count_demands operand) }
    ensures assignment { (left right : Operand) → AreInOrder (assignment_demands left right) }
    ensures update { (group : Group) (left right : Operand) → AreInOrder (update_demands group left right) }
    ensures operator { (group : Group) (left right : Operand) → IsFoundBy (Broken.Rule 4) (operated group left right) }
{}

/// Of what is found there is one answer, in a table where no two numbers are those of one type.
#[tactic(auto, using(crate::proofs::ctypes::Judging::one_answer))]
pub fn one_answer_is_given()
    ensures { (old new : List CType) (judgement : Judgement) (first second : Outcome) → AreApart new → Answers old judgement new first → Answers old judgement new second → first ≡ second }
{}

/// `sizeof` takes `_Bool`, `int` and each pointer, and not `void` (C11 6.5.3.4p1).
pub fn complete_types_have_sizes()
    ensures { (structs : List StructDef) → AreMeasured structs }
{
    cbase::layout_rules();
}
