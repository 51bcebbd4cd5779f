//! What entries and edges cost, by node and by dimension.

ghost use Rattle.std.specs.Prelude.{◌≡◌, ◌<◌, ℕ, [], IfOk, slice_index, slice_index_or};
ghost use Rattle.xdg_problem.specs.Costs.{label_cost};
ghost use Rattle.xdg_engine.specs.CostRows as spec;

use std::alloc::Global;
use xdg_base::{DimId, EntryNo, LabelId, List, OutOfMemory};
use xdg_problem::{Costs, Parts};

/// What candidates cost, one after another.
fn row_of(alloc: Global, costs: &Costs, candidates: &[EntryNo]) -> Result<List<u32>, OutOfMemory>
    ensures { IfOk result (λ row. row ≡ spec.entry_row costs.now candidates.now) }
{
    let mut row = List::new(alloc);
    for entry in candidates {
        row.push(costs.of_entry(*entry))?;
    }
    Ok(row)
}

/// What the candidates of each node cost.
pub(crate) fn entry_rows(
    alloc: Global,
    costs: &Costs,
    parts: &Parts,
) -> Result<List<List<u32>>, OutOfMemory>
    ensures { IfOk result (λ rows. rows ≡ spec.entry_rows costs.now parts.now) }
{
    let mut rows = List::new(alloc);
    for candidates in parts.candidates.as_slice() {
        rows.push(row_of(alloc, costs, candidates.as_slice())?)?;
    }
    Ok(rows)
}

/// What an edge of a dimension costs, by each of 32 labels.
fn label_row(costs: &Costs, dim: DimId) -> [u32; 32]
    ensures { (label : ℕ) → label < 32 → slice_index result label ≡ label_cost costs.now dim.0 label }
{
    let mut row = [0; 32];
    for label in 0..32 {
        row[usize::from(label)] = costs.of_label(dim, LabelId(label));
    }
    row
}

/// What an edge costs, by each of eight dimensions and each of 32 labels.
pub(crate) fn label_rows(costs: &Costs) -> [[u32; 32]; 8]
    ensures { spec.AreLabelCosts costs.now result }
{
    let mut rows = [[0; 32]; 8];
    for dim in 0..8 {
        rows[usize::from(dim)] = label_row(costs, DimId(dim));
    }
    rows
}
