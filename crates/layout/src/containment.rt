// Which components of a type contain a range.
ghost use Rattle.std.specs.Prelude.{◌≡◌, ◌<◌};
ghost use Rattle.definitions.specs.Containment.{end_of, at_length, element_size};
ghost use Rattle.qptr.specs.Choices.{choices_in};
ghost use Rattle.qptr.specs.Values.{size_of};
ghost use Rattle.layout.specs.Located.{InTable};
ghost use Rattle.layout.specs.Containing.{size_in, InElements, Contains, FieldsInTable, InFields, Finds};

use crate::format::field_at;
use crate::setting::Setting;
use crate::table::{Array, Components, Field, FieldList, Table, TypeLayout};
use qptr::{Choices, Lookup, MaxSize};

// The next component that contains a range: its type, the offset that remains in it, and the index to go on from.
#[derive(Clone, Copy)]
pub struct Component {
    pub ty: u32,
    pub rest: u32,
    pub next: usize,
}

// The end of a range, capped at the last number of 32 bits; a dynamic size counts as 0 here.
pub fn end_of(start: u32, size: MaxSize) -> u32
    ensures { result ≡ end_of start (size_of size) }
{
    match size {
        MaxSize::Fixed(n) => start.saturating_add(n),
        MaxSize::Dynamic => start,
    }
}

// What an array contains at its length: an element of size 0, or nothing. The lookup is asked here alone.
pub fn at_length(choices: Choices) -> Option<u32>
    ensures { size_in result ≡ at_length (choices_in choices) }
{
    match choices.lookup {
        Lookup::Lenient => Some(0),
        Lookup::Strict => None,
    }
}

// The size of the element at an index, where a component has this size and the array this length (0 = none).
fn element_size(choices: Choices, size: u32, len: u32, index: u32) -> Option<u32>
    ensures { size_in result ≡ element_size (choices_in choices) size len index }
{
    if len == 0 || index < len {
        return Some(size);
    }
    if index == len {
        at_length(choices)
    } else {
        None
    }
}

impl Table<'_> {
    // Does the field contain the range? A dynamic one has no end.
    fn field_contains(&self, field: Field, start: u32, end: u32) -> bool
        requires { InTable self.now field.ty }
        ensures { Contains self.now field start end result }
    {
        let Field { offset, ty } = field;
        if start < offset {
            return false;
        }
        self.is_dynamic(ty) || end <= offset.saturating_add(self.fixed_size(ty))
    }

    // The first field that contains the range, from index `from` on.
    pub fn in_fields(
        &self,
        fields: FieldList,
        from: usize,
        start: u32,
        end: u32,
    ) -> Option<Component>
        requires { FieldsInTable self.now fields }
        ensures { InFields self.now fields from start end result }
    {
        for i in from..fields.count {
            let field = field_at(self.bytes, fields.at + i * 8);
            if self.field_contains(field, start, end) {
                return Some(Component {
                    ty: field.ty,
                    rest: start - field.offset,
                    next: i + 1,
                });
            }
        }
        None
    }
}

impl Setting<'_> {
    // The element that contains the range. There is at most one, so the index to go on from is past it.
    pub fn in_elements(&self, array: Array, start: u32, end: u32) -> Option<Component>
        requires { (0 < array.stride) × InTable self.now.table array.elem }
        ensures { InElements self.now array start end result }
    {
        let index = start / array.stride;
        let from = index * array.stride;
        let whole = self.table.fixed_size(array.elem);
        let size = element_size(self.choices, whole, array.len, index)?;
        if from.checked_add(size)? < end {
            return None;
        }
        Some(Component {
            ty: array.elem,
            rest: start % array.stride,
            next: 1,
        })
    }

    // The source's `find_components_containing`: the first component of a type that contains the range, from index `from` on.
    pub fn find_components_containing(
        &self,
        ty: u32,
        from: usize,
        start: u32,
        end: u32,
    ) -> Option<Component>
        requires { InTable self.now.table ty }
        ensures { Finds self.now ty from start end result }
    {
        let TypeLayout::Concrete { components, .. } = self.table.layout_of(ty) else {
            return None;
        };
        match components {
            Components::Scalar => None,
            Components::Elements(array) => {
                if from == 0 {
                    return self.in_elements(array, start, end);
                }
                None
            }
            Components::Fields(fields) => self.table.in_fields(fields, from, start, end),
        }
    }
}
