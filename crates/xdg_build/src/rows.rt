//! The features of entries as rows of numbers, compiled once for each record.

ghost use Rattle.std.specs.Prelude.{◌≡◌, ◌<◌, [], ◌∷◌, length, map, get_or, All, IfOk, OnOk};
ghost use Rattle.xdg_domain.specs.declared.values.Value.{out-Value};
ghost use Rattle.xdg_build.specs.Features as features;
ghost use Rattle.xdg_build.specs.Rows.{record_of, feature_in, features_in_record, features_by_number, AreKept};

use indexmap::IndexMap;
use std::alloc::Global;
use xdg_base::{EntryNo, List, OutOfMemory};
use xdg_domain::{CardMap, CardSet, Fields, SetOf, Value, ValueMap};
use xdg_packed::Packed;
use xdg_problem::{Feat, Nums, SharedList};

/// The numbers of a cardinality.
fn cards_row(alloc: Global, cards: &CardSet) -> Result<Nums, OutOfMemory>
    ensures { IfOk result (λ made. made ≡ cards.now) }
{
    let least = cards.least();
    let end = cards.greatest() + 1;
    let mut numbers = Vec::new(alloc);
    for number in least..end {
        if !cards.contains(number) {
            continue;
        }
        numbers.push(u16::from(number))?;
    }
    Ok(Nums::of(numbers))
}

/// The members of a set.
fn set_row(alloc: Global, set: &SetOf) -> Result<Nums, OutOfMemory>
    ensures { IfOk result (λ made. made ≡ set.now) }
{
    let numbers = Vec::from_slice(alloc, set.as_slice())?;
    Ok(Nums::of(numbers))
}

/// The members of a value that is a set.
fn members_row(alloc: Global, value: &Value) -> Result<Nums, OutOfMemory>
    ensures { IfOk result (λ made. made ≡ features.members_in (out-Value value.now)) }
{
    match value {
        Value::Set(set) => set_row(alloc, set),
        _ => Ok(Nums::of(Vec::new(alloc))),
    }
}

/// The row of a set.
fn set_rows(alloc: Global, set: &SetOf) -> Result<List<Nums>, OutOfMemory>
    ensures { IfOk result (λ made. made ≡ set.now ∷ []) }
{
    let mut made = List::new(alloc);
    made.push(set_row(alloc, set)?)?;
    Ok(made)
}

/// The rows of a valency.
fn valency_rows(alloc: Global, valency: &CardMap) -> Result<List<Nums>, OutOfMemory>
    ensures { IfOk result (λ made. made ≡ map (λ said. said.1) valency.now) }
{
    let mut made = List::new(alloc);
    for said in valency.as_slice() {
        made.push(cards_row(alloc, &said.1)?)?;
    }
    Ok(made)
}

/// The rows of a map.
fn map_rows(alloc: Global, values: &ValueMap) -> Result<List<Nums>, OutOfMemory>
    ensures { IfOk result (λ made. made ≡ map (λ said. features.members_in (out-Value said.1)) values.now) }
{
    let mut made = List::new(alloc);
    for said in values.as_slice() {
        made.push(members_row(alloc, &said.1)?)?;
    }
    Ok(made)
}

/// The rows of a value.
fn value_rows(alloc: Global, value: &Value) -> Result<List<Nums>, OutOfMemory>
    ensures { IfOk result (λ made. made ≡ features.rows_in (out-Value value.now)) }
{
    match value {
        Value::Set(set) => set_rows(alloc, set),
        Value::Valency(valency) => valency_rows(alloc, valency),
        Value::Map(values) => map_rows(alloc, values),
        _ => Ok(List::new(alloc)),
    }
}

/// The feature with these rows.
fn feature_of(alloc: Global, rows: List<Nums>) -> Result<Feat, OutOfMemory>
    ensures { IfOk result (λ made. made ≡ record { rows = rows }) }
{
    Ok(Feat {
        rows: SharedList::of(alloc, rows)?,
    })
}

/// The feature with that place, as a record has it.
fn feature(alloc: Global, fields: &Fields, place: usize) -> Result<Feat, OutOfMemory>
    ensures { IfOk result (λ made. made ≡ feature_in fields.now place) }
{
    for said in fields.as_slice() {
        if said.0 as usize == place {
            let rows = value_rows(alloc, &said.1)?;
            return feature_of(alloc, rows);
        }
    }
    feature_of(alloc, List::new(alloc))
}

/// The features with these places, as a record has them.
fn record_features(
    alloc: Global,
    fields: &Fields,
    places: &[usize],
) -> Result<List<Feat>, OutOfMemory>
    ensures { IfOk result (λ made. made ≡ features_in_record places.now fields.now) }
{
    let mut made = List::new(alloc);
    for place in places {
        made.push(feature(alloc, fields, *place)?)?;
    }
    Ok(made)
}

/// The same features once more. Their rows are shared and not copied.
fn shared_features(alloc: Global, features: &[Feat]) -> Result<List<Feat>, OutOfMemory>
    ensures { IfOk result (λ made. made ≡ features.now) }
{
    let mut made = Vec::with_capacity(alloc, features.len())?;
    for feature in features {
        made.push(Feat {
            rows: feature.rows.share()?,
        })?;
    }
    Ok(List::from_vec(made))
}

/// The features with these places of an entry, for one used dimension. What is kept are the features of the records that came
/// before, each under the number of the first entry with that record. The entry shares what is kept for its record; a record
/// that comes first is compiled and kept.
fn entry_features(
    alloc: Global,
    packed: &Packed,
    dim: usize,
    places: &[usize],
    no: EntryNo,
    kept: &mut IndexMap<u32, List<Feat>>,
) -> Result<List<Feat>, OutOfMemory>
    requires entry { no.0 < length packed.now.entries }
    requires dim { dim < length (get_or packed.now.entries no.0 []) }
    requires kept { AreKept packed.now.entries dim places.now kept.old.entries }
    ensures features { IfOk result (λ made. made ≡ features_in_record places.now (record_of packed.now.entries dim no.0)) }
    ensures kept { OnOk result (AreKept packed.now.entries dim places.now kept.new.entries) }
{
    let first = packed.first_alike(no, dim).0;
    if let Some(features) = kept.get(&first) {
        return shared_features(alloc, features.as_slice());
    }
    let fields = packed.entry(no).fields(dim);
    let made = record_features(alloc, fields, places)?;
    let shared = shared_features(alloc, made.as_slice())?;
    kept.insert(first, made)?;
    Ok(shared)
}

/// The features with these places of each of the entries of a node, for one used dimension, with what is kept of records.
fn node_features(
    alloc: Global,
    packed: &Packed,
    dim: usize,
    places: &[usize],
    numbers: &[EntryNo],
    kept: &mut IndexMap<u32, List<Feat>>,
) -> Result<List<List<Feat>>, OutOfMemory>
    requires dim { All (λ entry. dim < length entry) packed.now.entries }
    requires numbers { All (λ no. no.0 < length packed.now.entries) numbers.now }
    requires kept { AreKept packed.now.entries dim places.now kept.old.entries }
    ensures features { IfOk result (λ made. made ≡ features_by_number packed.now.entries dim places.now numbers.now) }
    ensures kept { OnOk result (AreKept packed.now.entries dim places.now kept.new.entries) }
{
    let mut made = List::new(alloc);
    for no in numbers {
        made.push(entry_features(alloc, packed, dim, places, *no, kept)?)?;
    }
    Ok(made)
}

/// The same of the entries of each node. A record that comes first is compiled, and all entries that have it share its rows. The time
/// is linear in the number of candidates and in what the different records say that come first.
pub(crate) fn all_features(
    alloc: Global,
    packed: &Packed,
    dim: usize,
    places: &[usize],
    candidates: &[SharedList<EntryNo>],
    kept: &mut IndexMap<u32, List<Feat>>,
) -> Result<List<SharedList<List<Feat>>>, OutOfMemory>
    requires dim { All (λ entry. dim < length entry) packed.now.entries }
    requires candidates { All (All (λ no. no.0 < length packed.now.entries)) candidates.now }
    requires kept { AreKept packed.now.entries dim places.now kept.old.entries }
    ensures features { IfOk result (λ made. made ≡ map (features_by_number packed.now.entries dim places.now) candidates.now) }
    ensures kept { OnOk result (AreKept packed.now.entries dim places.now kept.new.entries) }
{
    let mut made = List::new(alloc);
    for numbers in candidates {
        let features = node_features(alloc, packed, dim, places, numbers.as_slice(), kept)?;
        made.push(SharedList::of(alloc, features)?)?;
    }
    Ok(made)
}
