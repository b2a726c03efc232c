// A layout table and what it can be asked: the layout of a type, its size, and whether it is dynamic. A stride or a length of
// 0 is none, as it stands in the table.
ghost use Rattle.definitions.specs.Table.{is_concrete, fixed_size, is_dynamic};
ghost use Rattle.layout.specs.Located.{InTable, LayoutIs, Says};

use crate::format::layout_at;

// A layout table: its bytes, and where each of its records begins, as `accept` found it. That they do is said in clauses and no invariant, since
// each function asks more: that a type is in the table, or which table it is.
#[derive(Clone, Copy)]
pub struct Table<'a> {
    pub bytes: &'a [u8],
    pub starts: &'a [u32],
}

// The layout of a type, in document 01's three cases, of which none is an error of this crate. A handle stands for an array of handles too.
#[derive(Clone, Copy)]
pub enum TypeLayout {
    // a dynamic stride of 0 is none
    Concrete {
        size: u32,
        dyn_stride: u32,
        components: Components,
    },
    Handle,
    Failed,
}

#[derive(Clone, Copy)]
pub enum Components {
    Scalar,
    Elements(Array),
    Fields(FieldList),
}

// Elements of one type. A length of 0 is none.
#[derive(Clone, Copy)]
pub struct Array {
    pub stride: u32,
    pub elem: u32,
    pub len: u32,
}

// So many fields, from this byte of the table on.
#[derive(Clone, Copy)]
pub struct FieldList {
    pub at: usize,
    pub count: usize,
}

#[derive(Clone, Copy)]
pub struct Field {
    pub offset: u32,
    pub ty: u32,
}

// A type and a record's start are 32 bits, and become an index by `as`: `usize` has no From of them.

impl Table<'_> {
    // The layout of a type, found in one step.
    pub fn layout_of(&self, ty: u32) -> TypeLayout
        requires { InTable self.now ty }
        ensures { LayoutIs self.now ty result }
    {
        layout_at(self.bytes, self.starts[ty as usize] as usize)
    }

    pub fn is_concrete(&self, ty: u32) -> bool
        requires { InTable self.now ty }
        ensures { Says is_concrete self.now ty result }
    {
        matches!(self.layout_of(ty), TypeLayout::Concrete { .. })
    }

    // The size, which leaves a dynamic part out; 0 for what is not concrete.
    pub fn fixed_size(&self, ty: u32) -> u32
        requires { InTable self.now ty }
        ensures { Says fixed_size self.now ty result }
    {
        match self.layout_of(ty) {
            TypeLayout::Concrete { size, .. } => size,
            TypeLayout::Handle | TypeLayout::Failed => 0,
        }
    }

    pub fn is_dynamic(&self, ty: u32) -> bool
        requires { InTable self.now ty }
        ensures { Says is_dynamic self.now ty result }
    {
        match self.layout_of(ty) {
            TypeLayout::Concrete { dyn_stride, .. } => 0 < dyn_stride,
            TypeLayout::Handle | TypeLayout::Failed => false,
        }
    }
}
