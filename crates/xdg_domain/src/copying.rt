//! Copies of values.

ghost use Rattle.std.specs.Prelude.{◌≡◌, ◌++◌, IfOk, OnOk};

use crate::values::{Fields, Value, ValueMap};
use std::alloc::Global;
use xdg_base::{List, OutOfMemory};

impl Value {
    /// A copy.
    #[cycle(copy)]
    pub fn copy(&self, alloc: Global) -> Result<Value, OutOfMemory>
        ensures { IfOk result (λ made. made ≡ self.now) }
    {
        match self {
            Value::Const(number) => Ok(Value::Const(*number)),
            Value::Tuple(number) => Ok(Value::Tuple(*number)),
            Value::Set(set) => Ok(Value::Set(set.copy(alloc)?)),
            Value::Card(cards) => Ok(Value::Card(*cards)),
            Value::Valency(said) => Ok(Value::Valency(said.copy(alloc)?)),
            Value::Map(said) => {
                let mut made = List::new(alloc);
                add_entries(alloc, said.as_slice(), &mut made)?;
                Ok(Value::Map(made))
            }
            Value::Bool(holds) => Ok(Value::Bool(*holds)),
            Value::Int(number) => Ok(Value::Int(*number)),
            Value::Str(text) => Ok(Value::Str(text.copy(alloc)?)),
            Value::Rec(said) => {
                let mut made = List::new(alloc);
                add_fields(alloc, said.as_slice(), &mut made)?;
                Ok(Value::Rec(made))
            }
        }
    }
}

/// Adds copies of what is said of keys.
#[cycle(copy)]
pub(crate) fn add_entries(
    alloc: Global,
    entries: &[(u8, Value)],
    made: &mut ValueMap,
) -> Result<(), OutOfMemory>
    ensures { OnOk result (made.new ≡ made.old ++ entries.now) }
{
    for entry in entries {
        made.push((entry.0, entry.1.copy(alloc)?))?;
    }
    Ok(())
}

/// Adds copies of what is said of fields.
#[cycle(copy)]
pub(crate) fn add_fields(
    alloc: Global,
    entries: &[(u32, Value)],
    made: &mut Fields,
) -> Result<(), OutOfMemory>
    ensures { OnOk result (made.new ≡ made.old ++ entries.now) }
{
    for entry in entries {
        made.push((entry.0, entry.1.copy(alloc)?))?;
    }
    Ok(())
}
