//! Whether values are the same.

ghost use Rattle.std.specs.Prelude.{◌≡◌, ◌↔◌, true};

use crate::cards::CardSet;
use crate::sets::SetOf;
use crate::values::Value;
use xdg_base::Text;

impl Value {
    /// Whether the two are the same value. The time is linear in the two, and it takes no memory.
    #[cycle(same)]
    pub fn equals(&self, other: &Value) -> bool
        ensures { (result ≡ true) ↔ (self.now ≡ other.now) }
    {
        match (self, other) {
            (Value::Const(mine), Value::Const(theirs)) => *mine == *theirs,
            (Value::Tuple(mine), Value::Tuple(theirs)) => *mine == *theirs,
            (Value::Set(mine), Value::Set(theirs)) => same_sets(mine, theirs),
            (Value::Card(mine), Value::Card(theirs)) => mine.equals(theirs),
            (Value::Valency(mine), Value::Valency(theirs)) => same_cards(
                mine.as_slice(),
                theirs.as_slice(),
            ),
            (Value::Map(mine), Value::Map(theirs)) => same_entries(
                mine.as_slice(),
                theirs.as_slice(),
            ),
            (Value::Bool(mine), Value::Bool(theirs)) => *mine == *theirs,
            (Value::Int(mine), Value::Int(theirs)) => *mine == *theirs,
            (Value::Str(mine), Value::Str(theirs)) => same_texts(mine, theirs),
            (Value::Rec(mine), Value::Rec(theirs)) => same_fields(
                mine.as_slice(),
                theirs.as_slice(),
            ),
            _ => false,
        }
    }
}

/// Whether two maps say the same, given what they say of keys.
#[cycle(same)]
fn same_entries(one: &[(u8, Value)], other: &[(u8, Value)]) -> bool
    ensures { (result ≡ true) ↔ (one.now ≡ other.now) }
{
    if one.len() != other.len() {
        return false;
    }
    for at in 0..one.len() {
        if one[at].0 != other[at].0 {
            return false;
        }
        if !one[at].1.equals(&other[at].1) {
            return false;
        }
    }
    true
}

/// Whether two records say the same, given what they say of fields. The time is linear in the two, and it takes no memory.
#[cycle(same)]
pub fn same_fields(one: &[(u32, Value)], other: &[(u32, Value)]) -> bool
    ensures { (result ≡ true) ↔ (one.now ≡ other.now) }
{
    if one.len() != other.len() {
        return false;
    }
    for at in 0..one.len() {
        if one[at].0 != other[at].0 {
            return false;
        }
        if !one[at].1.equals(&other[at].1) {
            return false;
        }
    }
    true
}

/// Whether two lists of cardinalities by key are the same.
fn same_cards(one: &[(u8, CardSet)], other: &[(u8, CardSet)]) -> bool
    ensures { (result ≡ true) ↔ (one.now ≡ other.now) }
{
    if one.len() != other.len() {
        return false;
    }
    for at in 0..one.len() {
        if one[at].0 != other[at].0 {
            return false;
        }
        if !one[at].1.equals(&other[at].1) {
            return false;
        }
    }
    true
}

/// Whether two sets have the same members.
fn same_sets(one: &SetOf, other: &SetOf) -> bool
    ensures { (result ≡ true) ↔ (one.now ≡ other.now) }
{
    one.as_slice() == other.as_slice()
}

/// Whether two texts have the same characters.
fn same_texts(one: &Text, other: &Text) -> bool
    ensures { (result ≡ true) ↔ (one.now ≡ other.now) }
{
    one.as_str() == other.as_str()
}
