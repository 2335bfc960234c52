ghost use Rattle.std.specs.Prelude.{◌≡◌, ◌<◌, ◌&&◌, ◌∷◌, [], not, true, List, length, map, option_map, reverse, IfOk, OnOk, if◌then◌else◌};
ghost use Rattle.expressions.specs.Numbers.{Numbering, handed_at};
ghost use Rattle.typing.specs.Outcomes.{Handed};
ghost use Rattle.c_machine.specs.Program.{Program, fixed_in, is_linked_in};
ghost use Rattle.c_machine.specs.Trees.{object_of, static_rows};
ghost use Rattle.c_text.specs.Fixed.{fixed_by, put_fixed};
ghost use Rattle.c_text.specs.Kept.{kept_objects, sized, IsPushed};
ghost use Rattle.c_text.specs.Objects.{object_by};
ghost use Rattle.c_text.specs.Rows.{is_known};
ghost use Rattle.c_text.specs.Stands.{StandsFor};

use crate::fixed::put_fixed;
use crate::fixed_object::FixedObject;
use crate::object_row::ObjectRow;
use crate::pushing::push_objects;
use crate::typed_text::TypedText;
use c_machine::Object;
use cbase::NoMemory;
use expressions::HandedRow;
use std::alloc::Global;

impl TypedText {
    /// The objects that live as long as the program runs: those of the file, and then those inside functions, each in order of the text (C11 6.2.4p3).
    ///
    /// It is `None` exactly where one of them has more than 65,536 bytes, of which no size is kept. It takes time and memory for what was handed on, and a
    /// step more for each two objects whose rows do not come in order of the text.
    pub fn static_objects(&self, alloc: Global) -> Result<Option<Vec<Object>>, NoMemory>
        ensures { IfOk result (λ found. (n : Numbering) (p : Program) → StandsFor n self.now p
            → option_map (λ objects. objects.items) found ≡ kept_objects (map (object_of p) (static_rows p))) }
    {
        let mut objects = Vec::new(alloc);
        if self.push_statics(alloc, &mut objects)? {
            Ok(Some(objects))
        } else {
            Ok(None)
        }
    }

    /// Pushes them into a list that is empty, where the size of each is kept, and says whether it is.
    fn push_statics(&self, alloc: Global, objects: &mut Vec<Object>) -> Result<bool, NoMemory>
        requires { objects.old.items ≡ [] }
        ensures { IfOk result (λ whole. (n : Numbering) (p : Program) → StandsFor n self.now p
            → IsPushed [] (map (λ row. sized (object_of p row)) (static_rows p)) whole objects.new.items) }
    {
        if self.push_fixed(alloc, objects, true)? {
            self.push_fixed(alloc, objects, false)
        } else {
            Ok(false)
        }
    }

    /// Pushes those of the file, or those inside functions, where the size of each is kept, and says whether it is.
    fn push_fixed(
        &self,
        alloc: Global,
        objects: &mut Vec<Object>,
        outside: bool,
    ) -> Result<bool, NoMemory>
        ensures { IfOk result (λ whole. (n : Numbering) (p : Program) → StandsFor n self.now p
            → IsPushed objects.old.items (map (λ row. sized (object_of p row)) (fixed_in p.handed outside p.handed)) whole objects.new.items) }
    {
        let mut rows = Vec::new(alloc);
        self.gather_fixed(&mut rows, outside)?;
        push_objects(objects, &mut rows)
    }

    /// Puts them into a list that is empty, the last one first.
    fn gather_fixed(&self, rows: &mut Vec<FixedObject>, outside: bool) -> Result<(), NoMemory>
        requires { rows.old.items ≡ [] }
        ensures { OnOk result ((n : Numbering) (p : Program) → StandsFor n self.now p
            → reverse rows.new.items ≡ map (fixed_by p) (fixed_in p.handed outside p.handed)) }
    {
        let mut left = self.context.handed().len();
        while left > 0 {
            left -= 1;
            self.put_row(rows, self.handed_row(left), outside)?;
        }
        Ok(())
    }

    /// Puts the object of a row into such a list, if it is one of them.
    fn put_row(
        &self,
        rows: &mut Vec<FixedObject>,
        row: HandedRow,
        outside: bool,
    ) -> Result<(), NoMemory>
        requires { is_known (length self.now.types) (length self.now.environment.signatures) row ≡ true }
        ensures { OnOk result ((n : Numbering) (p : Program) (rest : List Handed) → StandsFor n self.now p
            → reverse rows.old.items ≡ map (fixed_by p) (fixed_in p.handed outside rest)
            → reverse rows.new.items ≡ map (fixed_by p) (fixed_in p.handed outside (handed_at n row ∷ rest))) }
    {
        match row {
            HandedRow::Object {
                token,
                ctype,
                fixed,
                zeroed,
            } => self.put_object(
                rows,
                ObjectRow {
                    token,
                    ctype,
                    fixed,
                    zeroed,
                },
                outside,
            ),
            HandedRow::Expression { .. }
            | HandedRow::Store { .. }
            | HandedRow::Link { .. }
            | HandedRow::Function { .. }
            | HandedRow::Parameter { .. } => Ok(()),
        }
    }

    /// Puts an object into such a list, if it is one of them.
    fn put_object(
        &self,
        rows: &mut Vec<FixedObject>,
        row: ObjectRow,
        outside: bool,
    ) -> Result<(), NoMemory>
        requires { row.ctype < length self.now.types }
        ensures { OnOk result ((n : Numbering) (p : Program) → StandsFor n self.now p
            → reverse rows.new.items ≡ (if row.fixed && (if outside then is_linked_in p.handed row.token else not (is_linked_in p.handed row.token))
            then put_fixed (fixed_by p (object_by n row)) (reverse rows.old.items) else reverse rows.old.items)) }
    {
        if !self.is_fixed(row, outside) {
            return Ok(());
        }
        put_fixed(
            rows,
            FixedObject {
                token: row.token,
                object: self.object(row),
            },
        )
    }

    /// Whether the object of a row lives as long as the program runs, and is one of the file, or one inside a function.
    fn is_fixed(&self, row: ObjectRow, outside: bool) -> bool
        ensures { (n : Numbering) (p : Program) → StandsFor n self.now p
            → result ≡ (row.fixed && (if outside then is_linked_in p.handed row.token else not (is_linked_in p.handed row.token))) }
    {
        if !row.fixed {
            return false;
        }
        if outside {
            self.is_linked(row.token)
        } else {
            !self.is_linked(row.token)
        }
    }
}
