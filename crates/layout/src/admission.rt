// The rules among records: which may stand in a table behind those before it.
ghost use Rattle.std.specs.Prelude.{◌+◌, ◌*◌, ◌≤◌, length};
ghost use Rattle.layout.specs.Values.{Whole};
ghost use Rattle.layout.specs.Located.{HasPrefix, Earlier, FieldsAdmitted, Admitted};

use crate::format::{field_at, layout_at};
use crate::table::{Components, Field, FieldList, Table, TypeLayout};

impl Table<'_> {
    // Is this the type of a concrete record of the table, which has the records so far?
    fn is_earlier(&self, ty: u32) -> bool
        requires { HasPrefix self.now }
        ensures { Earlier self.now ty result }
    {
        (ty as usize) < self.starts.len() && self.is_concrete(ty)
    }

    // Does each field have an earlier concrete type, start no earlier than the one before it ends, and end within 32 bits?
    fn fields_admitted(&self, fields: FieldList) -> bool
        requires standing { HasPrefix self.now }
        requires count_in_bounds { fields.at + fields.count * 8 ≤ length self.now.bytes.now }
        ensures { FieldsAdmitted self.now fields result }
    {
        let mut end: u32 = 0;
        for i in 0..fields.count {
            let Field { offset, ty } = field_at(self.bytes, fields.at + i * 8);
            if !self.is_earlier(ty) {
                return false;
            }
            if offset < end {
                return false;
            }
            let Some(past) = offset.checked_add(self.fixed_size(ty)) else {
                return false;
            };
            end = past;
            // a field with a dynamic stride stands last
            if self.is_dynamic(ty) {
                return i + 1 == fields.count;
            }
        }
        true
    }

    // Do the components of the record here keep the rules, where the table has the records before it?
    pub(super) fn is_admitted(&self, at: usize) -> bool
        requires standing { HasPrefix self.now }
        requires whole { Whole self.now.bytes.now at }
        ensures { Admitted self.now at result }
    {
        let TypeLayout::Concrete { components, .. } = layout_at(self.bytes, at) else {
            return true;
        };
        match components {
            Components::Scalar => true,
            Components::Elements(array) => self.is_earlier(array.elem),
            Components::Fields(fields) => self.fields_admitted(fields),
        }
    }
}
