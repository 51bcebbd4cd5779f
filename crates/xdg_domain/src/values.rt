//! Values of types.

use crate::cards::CardSet;
use crate::sets::SetOf;
use crate::valencies::CardMap;
use xdg_base::{List, Text};

/// What a record says: the values of the fields that are said, each with the place of its field in the type, from 0. The
/// places rise strictly.
pub type Fields = List<(u32, Value)>;

/// What a map says: the values of the keys that are said, each with the number of its key in the map's domain, from 0. The
/// numbers rise strictly.
pub type ValueMap = List<(u8, Value)>;

/// What a lexical entry says: a record for each used dimension, in the order in which they are used.
pub type Entry = List<Fields>;

/// A value of a type. What a valency, a map or a record does not say of a key or a field stays open.
#[cycle(value)]
#[derive(Debug, Drop)]
pub enum Value {
    /// A constant, by its place in its domain, from 0.
    Const(u8),
    /// A tuple, by its number, which counts the last field fastest.
    Tuple(u16),
    /// A set of constants or of tuples, by their numbers.
    Set(SetOf),
    /// A cardinality.
    Card(CardSet),
    /// Cardinalities by the numbers of their keys.
    Valency(CardMap),
    /// Values by the numbers of their keys.
    Map(ValueMap),
    /// `true` or `false`.
    Bool(bool),
    /// A number.
    Int(u32),
    /// A text.
    Str(Text),
    /// Values by the places of their fields.
    Rec(Fields),
}
