ghost use Rattle.std.specs.Prelude.{◌≡◌, ◌≤◌, drop, IfOk, Some};
ghost use Rattle.cevents.specs.Building.{built, built_all};
ghost use Rattle.cevents.specs.Workshop.{left_by};

use crate::builder::Builder;
use cbase::NoMemory;
use cevents::Event;
use cgrammar::Terminal;

/// What is made of a row of events.
#[derive(Clone, Copy)]
struct Turn {
    /// Whether they make something.
    made: bool,
    /// How many events it is made of.
    count: usize,
}

impl Builder {
    /// Makes what the event says of the pieces on top.
    pub(crate) fn build(&mut self, row: &[Terminal<'_>], event: Event) -> Result<bool, NoMemory>
        ensures { IfOk result (λ made. left_by made self.new ≡ built row.now event self.old.count self.old.pieces) }
    {
        match event {
            Event::Name { at } => self.name(row, at),
            Event::Constant { at } => self.constant(row, at),
            Event::AssertFail { at } => self.assert_fail(row, at),
            Event::Unary { op, at } => self.unary(row, op, at),
            Event::Count { up, after, at } => self.step(row, up, after, at),
            Event::SizeOf { at } => self.size_of(row, at),
            Event::SizeOfType { at } => self.size_of_type(row, at),
            Event::OffsetOf { at } => self.offset_of(row, at),
            Event::Cast { at } => self.cast(row, at),
            Event::Index { at } => self.index(row, at),
            Event::Member { through, at, name } => self.member(row, through, at, name),
            Event::Call { at } => self.call(row, at),
            Event::Inner { at, close } => self.inner(row, at, close),
            Event::Binary { op, at } => self.binary(row, op, at),
            Event::Assign { op, at } => self.assign(row, op, at),
            Event::Choose { at } => self.choose(row, at),
            Event::NoArguments => self.no_arguments(row),
            Event::Argument => self.argument(row),
            Event::Path { name } => self.path(row, name),
            Event::PathMember { name } => self.path_member(row, name),
            Event::PathIndex => self.path_index(row),
            Event::Value { after } => self.value(row, after),
            Event::NoParts => self.no_parts(row),
            Event::Part { member } => self.part(row, member),
            Event::Braces => self.braces(row),
            Event::NoExpression => self.no_expression(row),
            Event::OneExpression => self.one_expression(row),
            Event::Basic { basic } => self.basic(row, basic),
            Event::Named { at } => self.named(row, at),
            Event::StructTag { tag } => self.struct_tag(row, tag),
            Event::EnumTag { tag } => self.enum_tag(row, tag),
            Event::Struct { tag } => self.struct_with_fields(row, tag),
            Event::Enum { tag } => self.enum_with_values(row, tag),
            Event::TypeOfExpr => self.type_of_expr(row),
            Event::TypeOfType => self.type_of_type(row),
            Event::NoSizes => self.no_sizes(row),
            Event::OpenSize => self.open_size(row),
            Event::Size => self.size(row),
            Event::TypeName { stars } => self.type_name(row, stars),
            Event::NoFieldNames => self.no_field_names(row),
            Event::Field { name, stars } => self.field(row, name, stars),
            Event::BitField { name, stars } => self.bit_field(row, name, stars),
            Event::Padding { colon } => self.padding(row, colon),
            Event::NoFields => self.no_fields(row),
            Event::Fields => self.fields(row),
            Event::NoEnumerators => self.no_enumerators(row),
            Event::Enumerator { name } => self.enumerator(row, name),
            Event::EnumeratorValue { name } => self.enumerator_value(row, name),
            Event::NoParameters => self.no_parameters(row),
            Event::Parameter { name, stars } => self.parameter(row, name, stars),
            Event::NoDeclarators => self.no_declarators(row),
            Event::Object { name, stars } => self.object(row, name, stars),
            Event::InitializedObject { name, stars } => self.initialized_object(row, name, stars),
            Event::Function { name, stars } => self.function(row, name, stars),
            Event::Declaration { storage } => self.declaration(row, storage),
            Event::NoStatements => self.no_statements(row),
            Event::Statement => self.statement(row),
            Event::Declare { first, last } => self.declare(row, first, last),
            Event::Eval { first, last } => self.eval(row, first, last),
            Event::Block { first, last } => self.block(row, first, last),
            Event::If { first, close } => self.if_alone(row, first, close),
            Event::IfElse { first, close } => self.if_else(row, first, close),
            Event::While { first, close } => self.while_loop(row, first, close),
            Event::Do { first, close, last } => self.do_loop(row, first, close, last),
            Event::For {
                first,
                semicolon,
                close,
            } => self.for_loop(row, first, semicolon, close),
            Event::Break { first, last } => self.break_out(row, first, last),
            Event::Continue { first, last } => self.continue_on(row, first, last),
            Event::Return { first, last } => self.give_back(row, first, last),
            Event::EmptyItem => self.empty_item(row),
            Event::DeclareItem => self.declare_item(row),
            Event::FunctionItem { storage, close } => self.function_item(row, storage, close),
        }
    }

    /// Makes what the first of the events says; where it and the next two make an expression statement and put that behind
    /// other statements, as nearly all expressions before a `;` do, what the three say.
    #[tactic(auto, unfolding(cevents::specs::Building::built_all))]
    fn build_first(&mut self, row: &[Terminal<'_>], events: &[Event]) -> Result<Turn, NoMemory>
        ensures some { IfOk result (λ turn. 1 ≤ turn.count) }
        ensures made { IfOk result (λ turn. built_all row.now events.now (Some self.old) ≡ built_all row.now (drop turn.count events.now) (left_by turn.made self.new)) }
    {
        match events {
            [] => Ok(Turn {
                made: true,
                count: 1,
            }),
            [event] | [event, _] => Ok(Turn {
                made: self.build(row, *event)?,
                count: 1,
            }),
            [event, next, third, ..] => match (*event, *next, *third) {
                (Event::OneExpression, Event::Eval { first, last }, Event::Statement) => Ok(Turn {
                    made: self.expression_behind(row, first, last)?,
                    count: 3,
                }),
                (event, _, _) => Ok(Turn {
                    made: self.build(row, event)?,
                    count: 1,
                }),
            },
        }
    }

    /// Makes what the events say, one after the other.
    #[tactic(auto, using(crate::proofs::Made::made_of_nothing))]
    pub(crate) fn build_all(
        &mut self,
        row: &[Terminal<'_>],
        events: &[Event],
    ) -> Result<bool, NoMemory>
        ensures { IfOk result (λ made. left_by made self.new ≡ built_all row.now events.now (Some self.old)) }
    {
        let mut index: usize = 0;
        while index < events.len() {
            let turn = self.build_first(row, &events[index..])?;
            if !turn.made {
                return Ok(false);
            }
            index = index.saturating_add(turn.count);
        }
        Ok(true)
    }
}
