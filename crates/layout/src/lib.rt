// Layout tables: which bytes are one, what the record of a type says, and which of its components contain a range; and the setting of a call, a
// table with choices. Records are read where they start, and a list of fields is a byte's number too: `accept` keeps these in 32 bits, where a
// slice of the rest would take four times the room.
#![tactic(auto)]

ghost use Rattle.std.specs.Prelude.{◌≡◌, true, ◌≤◌};
ghost use Rattle.layout.specs.Bytes.{record_count};
ghost use Rattle.layout.specs.Located.{Room, Accepted};

use format::record_end;
use numbers::get16;

mod admission;
mod containment;
mod format;
mod setting;
mod table;

pub use containment::{Component, at_length, end_of};
pub use setting::Setting;
pub use table::{Array, Components, Field, FieldList, Table, TypeLayout};

// How many records a table may have.
pub const MAX_RECORDS: usize = 1024;

// As many records as most tables have at most.
pub const FEW_RECORDS: usize = 32;

// Does a table say that it has few records?
pub fn has_few(s: &[u8]) -> bool
    ensures { result ≡ true → record_count s.now ≤ 32 }
{
    2 <= s.len() && usize::from(get16(s, 0)) <= FEW_RECORDS
}

// Is this a layout table? How many records it has, if it is. Where each record begins is kept in `starts`, for a `Table` over both.
// A table that is accepted has at most 535,554 bytes, so a place fits 32 bits, to which it is cut by `as`.
pub fn accept(s: &[u8], starts: &mut [u32]) -> Option<usize>
    requires { Room s.now starts.old }
    ensures { Accepted s.now result starts.new }
{
    if s.len() < 2 {
        return None;
    }
    let count = usize::from(get16(s, 0));
    if MAX_RECORDS < count {
        return None;
    }
    let mut at: usize = 2;
    for n in 0..count {
        let end = record_end(s, at)?;
        let earlier = Table {
            bytes: s,
            starts: &starts[..n],
        };
        if !earlier.is_admitted(at) {
            return None;
        }
        starts[n] = at as u32;
        at = end;
    }
    if at < s.len() {
        return None;
    }
    Some(count)
}
