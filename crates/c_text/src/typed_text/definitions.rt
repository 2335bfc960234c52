ghost use Rattle.std.specs.Prelude.{◌≡◌, ◌+◌, ◌^◌, ◌<◌, ℕ, suc, true, false, drop, length, map, slice_get, IfSome, option_and_then};
ghost use Rattle.expressions.specs.Numbers.{Numbering};
ghost use Rattle.c_machine.specs.Program.{Program, leading_parameters, parameters_in, result_in};
ghost use Rattle.c_machine.specs.Trees.{kind_in};
ghost use Rattle.c_text.specs.FirstRows.{first_in};
ghost use Rattle.c_text.specs.Kept.{kept};
ghost use Rattle.c_text.specs.Parameters.{leading, parameter_type, AreParameters, types_by};
ghost use Rattle.c_text.specs.Results.{result_here};
ghost use Rattle.c_text.specs.Rows.{is_known};
ghost use Rattle.c_text.specs.Stands.{StandsFor};

use crate::first_rows::found;
use crate::kinds::type_kind;
use crate::parameters::Parameters;
use crate::typed_text::TypedText;
use c_machine::Kind;
use expressions::HandedRow;

impl TypedText {
    /// How many parameters these are. It takes one step.
    pub fn parameter_count(&self, params: Parameters) -> usize
        requires { AreParameters self.now params }
        ensures { (n : Numbering) (p : Program) → StandsFor n self.now p → result ≡ length (types_by n p params) }
    {
        match params {
            Parameters::OfSignature(signature) => self.signature_count(signature),
            Parameters::OfRows { count, .. } => count,
        }
    }

    /// What an access and an operator ask of the type of the one at an index.
    ///
    /// It is `None` where there is no such parameter, and where the type is not kept, as [`type_kind`] says. It takes one step.
    pub fn parameter_kind(&self, params: Parameters, index: usize) -> Option<Kind>
        requires { AreParameters self.now params }
        ensures { (n : Numbering) (p : Program) → StandsFor n self.now p
            → result ≡ option_and_then (λ t. kept (kind_in p t)) (slice_get (types_by n p params) index) }
    {
        match params {
            Parameters::OfSignature(signature) => self.signature_kind(signature, index),
            Parameters::OfRows { start, count } => self.row_kind(start, count, index),
        }
    }

    /// The parameters of the function that a name defines (C11 6.9.1p5). It takes one look-up by hash, and a step for each.
    pub fn defined_parameters(&self, token: u32) -> Parameters
        ensures are { AreParameters self.now result }
        ensures types { (n : Numbering) (p : Program) → StandsFor n self.now p → types_by n p result ≡ map (λ row. row.ctype) (parameters_in p.handed token) }
    {
        match self.behind_function(token) {
            None => Parameters::OfRows {
                start: self.context.handed().len(),
                count: 0,
            },
            Some(start) => Parameters::OfRows {
                start,
                count: self.leading_from(start),
            },
        }
    }

    /// What an access and an operator ask of the type of the result of the function that a name defines (C11 6.9.1p3).
    ///
    /// It is `None` where the type is not kept, as [`type_kind`] says. It takes one look-up by hash.
    pub fn defined_result(&self, token: u32) -> Option<Kind>
        ensures { (n : Numbering) (p : Program) → StandsFor n self.now p → result ≡ kept (kind_in p (result_in p.handed token)) }
    {
        match self.result_row(token) {
            None => Some(Kind::Void),
            Some(ctype) => type_kind(self.context.types(), ctype),
        }
    }

    /// The kind of a parameter at an index of so many, which stand behind so many rows.
    fn row_kind(&self, start: usize, count: usize, index: usize) -> Option<Kind>
        requires { count ≡ leading (drop start self.now.handed) }
        ensures { (n : Numbering) (p : Program) → StandsFor n self.now p
            → result ≡ option_and_then (λ t. kept (kind_in p t)) (slice_get (map (λ row. row.ctype) (leading_parameters (drop start p.handed))) index) }
    {
        if index >= count {
            return None;
        }
        // The number of all rows fits, and so does the place of each.
        let _rows = self.context.handed().len();
        match parameter_type(self.handed_row(start + index)) {
            None => None,
            Some(ctype) => type_kind(self.context.types(), ctype),
        }
    }

    /// How many parameters stand one behind the other from a row on.
    fn leading_from(&self, start: usize) -> usize
        ensures { result ≡ leading (drop start self.now.handed) }
    {
        let mut at = start;
        while self.is_parameter(at) {
            at += 1;
        }
        at - start
    }

    /// Whether a row is that of a parameter.
    fn is_parameter(&self, at: usize) -> bool
        ensures yes { result ≡ true → leading (drop at self.now.handed) ≡ suc (leading (drop (at + 1) self.now.handed)) }
        ensures no { result ≡ false → leading (drop at self.now.handed) ≡ 0 }
        ensures inside { result ≡ true → at < length self.now.handed }
        ensures fits { result ≡ true → at + 1 < 2 ^ 64 }
    {
        if at >= self.context.handed().len() {
            return false;
        }
        parameter_type(self.handed_row(at)).is_some()
    }

    /// The number of the type of the result of the function that a name defines.
    fn result_row(&self, token: u32) -> Option<u32>
        ensures is { result ≡ first_in (result_here token) self.now.handed }
        ensures typed { IfSome result (λ ctype. ctype < length self.now.types) }
    {
        found(&self.tables.results, token)
    }
}

/// The number of the type of a parameter, if a row is that of one.
#[tactic(auto, using(crate::proofs::NamesStand::signature_below))]
fn parameter_type(row: HandedRow) -> Option<u32>
    ensures is { result ≡ parameter_type row }
    ensures typed { (types signatures : ℕ) → is_known types signatures row ≡ true → IfSome result (λ ctype. ctype < types) }
{
    match row {
        HandedRow::Parameter { ctype, .. } => Some(ctype),
        HandedRow::Expression { .. }
        | HandedRow::Store { .. }
        | HandedRow::Object { .. }
        | HandedRow::Link { .. }
        | HandedRow::Function { .. } => None,
    }
}
