//! Partial entries.

ghost use Rattle.std.specs.Prelude.{◌≡◌, IfOk, MatchOption};
ghost use Rattle.xdg_facts.specs.Membership.{In};
ghost use Rattle.xdg_types.specs.Table.{KeepsDim, KeepDims};
ghost use Rattle.xdg_types.specs.declared.table.DimType as spec;
ghost use Rattle.xdg_lexicon.specs.Partial.{IsPartial, ReadsDim, PartialsJoin, PartialsClash, SaysRecord, nothing};
ghost use Rattle.xdg_lexicon.specs.Right.{AreRight};

use crate::records::{join_records, read_record};
use std::alloc::Global;
use xdg_ast::{Pair, Term};
use xdg_base::{List, OutOfMemory};
use xdg_domain::Fields;
use xdg_terms::Bindings;
use xdg_types::DimType;

/// A partial entry: what is said of the features of each dimension of the grammar, used or not, in the order of the text.
/// Of a dimension of which nothing is said the record is empty.
pub type Partial = List<Fields>;

/// The partial entry that says nothing.
pub(crate) fn say_nothing(alloc: Global, dims: &[DimType]) -> Result<Partial, OutOfMemory>
    ensures same { IfOk result (λ made. made ≡ nothing dims.now) }
    ensures partial { IfOk result (λ made. IsPartial dims.now made) }
{
    let mut made = List::with_room(alloc, dims.len())?;
    for _ in dims {
        made.push(List::new(alloc))?;
    }
    Ok(made)
}

/// What two partial entries say together. None where they clash in a feature of some dimension.
pub(crate) fn join_partial(
    alloc: Global,
    dims: &[DimType],
    one: &[Fields],
    other: &[Fields],
) -> Result<Option<Partial>, OutOfMemory>
    requires one { IsPartial dims.now one.now }
    requires other { IsPartial dims.now other.now }
    ensures { IfOk result (λ told. MatchOption told
        (PartialsClash dims.now one.now other.now)
        (λ made. PartialsJoin dims.now one.now other.now made × IsPartial dims.now made)) }
{
    let mut made = List::new(alloc);
    for (place, dim) in dims.iter().enumerate() {
        let mine = one[place].as_slice();
        let theirs = other[place].as_slice();
        match join_records(alloc, dim.fields.as_slice(), mine, theirs)? {
            None => return Ok(None),
            Some(both) => made.push(both)?,
        }
    }
    Ok(Some(made))
}

/// The partial entry that says of the dimension with that name what the pairs say, by terms with which nothing is wrong.
pub(crate) fn read_partial(
    alloc: Global,
    dims: &[DimType],
    name: &str,
    pairs: &[Pair<Term>],
    bindings: &Bindings,
) -> Result<Partial, OutOfMemory>
    requires keeps { KeepDims dims.now }
    requires right { (dim : spec.DimType) → In dims.now dim → dim.name ≡ name.now → AreRight bindings.now dim.fields pairs.now }
    ensures says { IfOk result (λ made. SaysRecord dims.now bindings.now name.now pairs.now made) }
    ensures partial { IfOk result (λ made. IsPartial dims.now made) }
{
    let mut made = List::with_room(alloc, dims.len())?;
    for dim in dims {
        made.push(read_dim(alloc, dim, name, pairs, bindings)?)?;
    }
    Ok(made)
}

/// What the pairs say of a dimension, where it has that name.
fn read_dim(
    alloc: Global,
    dim: &DimType,
    name: &str,
    pairs: &[Pair<Term>],
    bindings: &Bindings,
) -> Result<Fields, OutOfMemory>
    requires keeps { KeepsDim dim.now }
    requires right { dim.now.name ≡ name.now → AreRight bindings.now dim.now.fields pairs.now }
    ensures { IfOk result (λ made. ReadsDim dim.now bindings.now name.now pairs.now made) }
{
    if dim.name.as_str() == name {
        read_record(alloc, dim.fields.as_slice(), pairs, bindings)
    } else {
        Ok(List::new(alloc))
    }
}
