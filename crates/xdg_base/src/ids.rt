//! Numbers that name parts of a problem. In memory all of them count from 0.

/// The place of a used dimension in the order of the `usedim` statements, from 0.
#[derive(Clone, Copy, Debug, PartialEq, Eq, PartialOrd, Ord)]
pub struct DimId(pub u8);

/// The place of an edge label in its dimension's label type, from 0.
#[derive(Clone, Copy, Debug, PartialEq, Eq, PartialOrd, Ord)]
pub struct LabelId(pub u8);

/// The place of an attribute in its dimension's attribute type, from 0.
#[derive(Clone, Copy, Debug, PartialEq, Eq, PartialOrd, Ord)]
pub struct AttrId(pub u8);

/// The place of a word in the sentence, from 0.
#[derive(Clone, Copy, Debug, PartialEq, Eq, PartialOrd, Ord)]
pub struct NodeId(pub u8);

/// The place of an entry in the expanded lexicon, from 0.
#[derive(Clone, Copy, Debug, PartialEq, Eq, PartialOrd, Ord)]
pub struct EntryNo(pub u32);
