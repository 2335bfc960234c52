ghost use Rattle.std.specs.Prelude.{◌≡◌, ◌+◌, ◌^◌, ◌<◌, true, List, [], ◌∷◌, length, map, drop, option_map, IfOk, IfSome, IfNone};
ghost use Rattle.expressions.specs.Numbers.{Numbering, handed_at};
ghost use Rattle.typing.specs.Outcomes.{Handed};
ghost use Rattle.c_machine.specs.Program.{Program, parameters_in, leading_parameters};
ghost use Rattle.c_text.specs.Functions.{behind_in, parameter_object};
ghost use Rattle.c_text.specs.Kept.{kept_objects, sized, IsPushed};
ghost use Rattle.c_text.specs.Rows.{is_known};
ghost use Rattle.c_text.specs.Stands.{StandsFor};

use crate::first_rows::found;
use crate::kinds::bytes_of;
use crate::pushing::push_object;
use crate::typed_text::TypedText;
use c_machine::Object;
use cbase::NoMemory;
use expressions::HandedRow;
use std::alloc::Global;

impl TypedText {
    /// The objects of the parameters of the function that a name defines, in order (C11 6.9.1p9).
    ///
    /// It is `None` exactly where one of them has more than 65,536 bytes, of which no size is kept. It takes one look-up by hash, and a step for each.
    pub fn parameter_objects(
        &self,
        alloc: Global,
        token: u32,
    ) -> Result<Option<Vec<Object>>, NoMemory>
        ensures { IfOk result (λ found. (n : Numbering) (p : Program) → StandsFor n self.now p
            → option_map (λ objects. objects.items) found ≡ kept_objects (map (parameter_object p) (parameters_in p.handed token))) }
    {
        let mut objects = Vec::new(alloc);
        if self.push_parameters_of(&mut objects, token)? {
            Ok(Some(objects))
        } else {
            Ok(None)
        }
    }

    /// Pushes the objects of the parameters of a function into a list that is empty, where the size of each is kept, and says whether it is.
    fn push_parameters_of(&self, objects: &mut Vec<Object>, token: u32) -> Result<bool, NoMemory>
        requires { objects.old.items ≡ [] }
        ensures { IfOk result (λ whole. (n : Numbering) (p : Program) → StandsFor n self.now p
            → IsPushed [] (map (λ param. sized (parameter_object p param)) (parameters_in p.handed token)) whole objects.new.items) }
    {
        match self.behind_function(token) {
            None => Ok(true),
            Some(start) => self.push_parameters(objects, start),
        }
    }

    /// Pushes the objects of the parameters that stand one behind the other from a row on.
    fn push_parameters(&self, objects: &mut Vec<Object>, start: usize) -> Result<bool, NoMemory>
        ensures { IfOk result (λ whole. (n : Numbering) (p : Program) → StandsFor n self.now p
            → IsPushed objects.old.items (map (λ param. sized (parameter_object p param)) (leading_parameters (drop start p.handed))) whole objects.new.items) }
    {
        let mut at = start;
        while let Some(object) = self.parameter_at(at) {
            if push_object(objects, object)? {
                at += 1;
            } else {
                return Ok(false);
            }
        }
        Ok(true)
    }

    /// The object of the parameter whose row is that one, if it is the row of a parameter, where its size is kept.
    fn parameter_at(&self, at: usize) -> Option<Option<Object>>
        ensures some { IfSome result (λ object. (n : Numbering) (p : Program) → StandsFor n self.now p
            → map (λ param. sized (parameter_object p param)) (leading_parameters (drop at p.handed))
            ≡ object ∷ map (λ param. sized (parameter_object p param)) (leading_parameters (drop (at + 1) p.handed))) }
        ensures none { IfNone result ((n : Numbering) (p : Program) → StandsFor n self.now p → leading_parameters (drop at p.handed) ≡ []) }
        ensures inside { IfSome result (λ object. at < length self.now.handed) }
        ensures fits { IfSome result (λ object. at + 1 < 2 ^ 64) }
    {
        if at >= self.context.handed().len() {
            return None;
        }
        self.parameter_alone(self.handed_row(at))
    }

    /// The object of the parameter whose row it is, if it is the row of a parameter, where its size is kept.
    fn parameter_alone(&self, row: HandedRow) -> Option<Option<Object>>
        requires { is_known (length self.now.types) (length self.now.environment.signatures) row ≡ true }
        ensures some { IfSome result (λ object. (n : Numbering) (p : Program) (rest : List Handed) → StandsFor n self.now p
            → map (λ param. sized (parameter_object p param)) (leading_parameters (handed_at n row ∷ rest))
            ≡ object ∷ map (λ param. sized (parameter_object p param)) (leading_parameters rest)) }
        ensures none { IfNone result ((n : Numbering) (rest : List Handed) → leading_parameters (handed_at n row ∷ rest) ≡ []) }
    {
        match row {
            HandedRow::Parameter { token, ctype } => Some(self.object_of_parameter(token, ctype)),
            HandedRow::Expression { .. }
            | HandedRow::Store { .. }
            | HandedRow::Object { .. }
            | HandedRow::Link { .. }
            | HandedRow::Function { .. } => None,
        }
    }

    /// The object of a parameter, where its size is kept.
    fn object_of_parameter(&self, token: Option<u32>, ctype: u32) -> Option<Object>
        requires { ctype < length self.now.types }
        ensures { (n : Numbering) (p : Program) → StandsFor n self.now p → result ≡ sized (parameter_object p (record { token = token; ctype = n.ctype ctype })) }
    {
        match bytes_of(self.context.types(), ctype) {
            None => None,
            Some(bytes) => Some(Object { token, bytes }),
        }
    }

    /// How many rows stand in front of the parameters of a function.
    pub(crate) fn behind_function(&self, token: u32) -> Option<usize>
        ensures { option_map (λ behind. drop behind self.now.handed) result ≡ behind_in token self.now.handed }
    {
        found(&self.tables.functions, token)
    }
}
