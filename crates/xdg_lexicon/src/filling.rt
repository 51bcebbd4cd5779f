//! Partial entries, made whole.

ghost use Rattle.std.specs.Prelude.{◌≡◌, IfOk, IfSome};
ghost use Rattle.xdg_domain.specs.Shapes.{fields_of, AreTypes};
ghost use Rattle.xdg_domain.specs.Valencies.{KeysRise};
ghost use Rattle.xdg_packed.specs.Filled.{filled_fields, AreSaid};
ghost use Rattle.xdg_lexicon.specs.Partial.{IsPartial};
ghost use Rattle.xdg_types.specs.Table.{typed};
ghost use Rattle.xdg_packed.specs.Entries.{IsEntry};
ghost use Rattle.xdg_lexicon.specs.Lexicon.{whole};

use std::alloc::Global;
use xdg_base::{List, OutOfMemory, Text};
use xdg_domain::{Entry, Fields, Ty, Value};
use xdg_packed::{fill, taken};
use xdg_types::TypeTable;

/// What a partial entry says of the used dimensions, with all defaults. None where it leaves a plain feature of one unsaid.
pub(crate) fn whole_entry(
    alloc: Global,
    types: &TypeTable,
    partial: &[Fields],
) -> Result<Option<Entry>, OutOfMemory>
    requires { IsPartial types.now.dims partial.now }
    ensures whole { IfOk result (λ told. told ≡ whole types.now partial.now) }
    ensures right { IfOk result (λ told. IfSome told (IsEntry types.now)) }
{
    let dims = types.dims();
    let mut entry = List::with_room(alloc, types.used().len())?;
    for place in types.used() {
        let said = partial[*place].as_slice();
        match filled_record(alloc, dims[*place].fields.as_slice(), said)? {
            None => return Ok(None),
            Some(record) => entry.push(record)?,
        }
    }
    Ok(Some(entry))
}

/// What is said of these features, with all defaults. None where a plain feature is unsaid.
fn filled_record(
    alloc: Global,
    types: &[(Text, Ty)],
    said: &[(u32, Value)],
) -> Result<Option<Fields>, OutOfMemory>
    requires types { AreTypes (fields_of (typed types.now)) }
    requires rises { KeysRise 0 said.now }
    requires said { AreSaid 0 (fields_of (typed types.now)) said.now }
    ensures { IfOk result (λ told. told ≡ filled_fields 0 (fields_of (typed types.now)) said.now) }
{
    let mut rest = said;
    let mut all = List::with_room(alloc, types.len())?;
    for (i, field) in types.iter().enumerate() {
        let Ok(place) = u32::try_from(i) else {
            return Err(OutOfMemory);
        };
        let (here, later) = taken(rest, place);
        match fill(alloc, &field.1, here)? {
            None => return Ok(None),
            Some(value) => all.push((place, value))?,
        }
        rest = later;
    }
    Ok(Some(all))
}
