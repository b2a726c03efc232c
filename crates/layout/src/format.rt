// How a record stands in the bytes of a table: what it says, and where it ends.
ghost use Rattle.std.specs.Prelude.{◌≡◌, SomeIff, ◌+◌, ◌<◌, ◌≤◌, length, get_or};
ghost use Rattle.numbers.specs.Words.{number_at, word};
ghost use Rattle.layout.specs.Values.{Whole, Reads, Ends};

use crate::table::{Array, Components, Field, FieldList, TypeLayout};
use numbers::{get16, get32};

// How many fields a record may have.
const MAX_FIELDS: usize = 64;

// A record is one byte, its kind, and then for the first three kinds size and dynamic stride, 4 bytes each. Elements go on with
// stride, component type and length, 4 bytes each, so 21 bytes in all; fields with their count, 2 bytes, and from byte 11 on
// offset and type, 4 bytes each. The kinds are bytes of the format, matched where a record's end is found and where it is
// read: an enum between would be a third match.
const SCALAR: u8 = 0x20;

const ELEMENTS: u8 = 0x21;

const FIELD_LIST: u8 = 0x22;

const HANDLE: u8 = 0x23;

const FAILED: u8 = 0x24;

pub(super) fn field_at(s: &[u8], at: usize) -> Field
    requires { at + 8 ≤ length s.now }
    ensures { (result.offset ≡ word s.now at) × (result.ty ≡ word s.now (at + 4)) }
{
    Field {
        offset: get32(s, at),
        ty: get32(s, at + 4),
    }
}

// A concrete layout with these components, and the size and dynamic stride of the record here.
fn concrete_at(s: &[u8], at: usize, components: Components) -> TypeLayout
    requires { at + 9 ≤ length s.now }
    ensures { result ≡ TypeLayout.Concrete (word s.now (at + 1)) (word s.now (at + 5)) components }
{
    TypeLayout::Concrete {
        size: get32(s, at + 1),
        dyn_stride: get32(s, at + 5),
        components,
    }
}

fn array_at(s: &[u8], at: usize) -> Array
    requires { at + 12 ≤ length s.now }
    ensures { (result.stride ≡ word s.now at) × (result.elem ≡ word s.now (at + 4)) × (result.len ≡ word s.now (at + 8)) }
{
    Array {
        stride: get32(s, at),
        elem: get32(s, at + 4),
        len: get32(s, at + 8),
    }
}

// The fields whose count stands here; they begin behind it.
fn field_list_at(s: &[u8], at: usize) -> FieldList
    requires { at + 2 ≤ length s.now }
    ensures { (result.at ≡ at + 2) × (result.count ≡ number_at 2 s.now at) }
{
    FieldList {
        at: at + 2,
        count: usize::from(get16(s, at)),
    }
}

// What a whole record says.
pub(super) fn layout_at(s: &[u8], at: usize) -> TypeLayout
    requires { Whole s.now at }
    ensures { Reads s.now at result }
{
    match s[at] {
        HANDLE => TypeLayout::Handle,
        FAILED => TypeLayout::Failed,
        SCALAR => concrete_at(s, at, Components::Scalar),
        ELEMENTS => concrete_at(s, at, Components::Elements(array_at(s, at + 9))),
        _ => concrete_at(s, at, Components::Fields(field_list_at(s, at + 9))),
    }
}

// Where so many bytes from here on end, if they are there.
fn end_after(s: &[u8], at: usize, size: usize) -> Option<usize>
    requires { at ≤ length s.now }
    ensures { SomeIff result (at + size ≤ length s.now) (at + size) }
{
    if s.len() - at < size {
        return None;
    }
    Some(at + size)
}

fn elements_end(s: &[u8], at: usize) -> Option<usize>
    requires { (at < length s.now) × (get_or s.now at 0 ≡ 0x21) }
    ensures { Ends s.now at result }
{
    let end = end_after(s, at, 21)?;
    if get32(s, at + 9) == 0 {
        return None;
    }
    Some(end)
}

fn fields_end(s: &[u8], at: usize) -> Option<usize>
    requires { (at < length s.now) × (get_or s.now at 0 ≡ 0x22) }
    ensures { Ends s.now at result }
{
    end_after(s, at, 11)?;
    let count = usize::from(get16(s, at + 9));
    if MAX_FIELDS < count {
        return None;
    }
    end_after(s, at, 11 + count * 8)
}

// Where the record that begins here ends. Which types its components have is not asked yet.
pub(super) fn record_end(s: &[u8], at: usize) -> Option<usize>
    requires { at ≤ length s.now }
    ensures { Ends s.now at result }
{
    match *s.get(at)? {
        HANDLE | FAILED => Some(at + 1),
        SCALAR => end_after(s, at, 9),
        ELEMENTS => elements_end(s, at),
        FIELD_LIST => fields_end(s, at),
        _ => None,
    }
}
