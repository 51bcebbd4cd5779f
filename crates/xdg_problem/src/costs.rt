//! What entries and edges cost.

ghost use Rattle.std.specs.Prelude.{◌≡◌, IfOk};
ghost use Rattle.xdg_problem.specs.Costs.{AreCosts, entry_cost, label_cost};

use std::alloc::Global;
use std::marker::Model;
use xdg_base::{DimId, EntryNo, LabelId, List, OutOfMemory};

/// What some entries cost, by their numbers, and the edges of some dimensions, by their labels. All else costs nothing.
#[derive(Debug, Drop)]
pub struct Costs {
    entries: List<(EntryNo, u32)>,
    labels: List<(DimId, LabelId, u32)>,
}

impl Model for Costs {
    ghost use Rattle.xdg_problem.specs.Costs.{CostLists, AreCosts};

    ghost Value = { CostLists };

    ghost view = { λ costs. record { entries = costs.entries; labels = costs.labels } };

    ghost invariant = { λ costs. AreCosts costs.entries costs.labels };
}

impl Costs {
    /// The costs that are said of entries, and of dimensions with a label.
    pub fn of(entries: List<(EntryNo, u32)>, labels: List<(DimId, LabelId, u32)>) -> Costs
        requires { AreCosts entries labels }
        ensures entries { result.entries ≡ entries }
        ensures labels { result.labels ≡ labels }
    {
        Costs { entries, labels }
    }

    /// What is said of entries, lent.
    pub fn entries(&self) -> &[(EntryNo, u32)]
        ensures same { result.now ≡ self.now.entries }
        ensures kept { AreCosts self.now.entries self.now.labels }
    {
        self.entries.as_slice()
    }

    /// What is said of dimensions with a label, lent.
    pub fn labels(&self) -> &[(DimId, LabelId, u32)]
        ensures same { result.now ≡ self.now.labels }
        ensures kept { AreCosts self.now.entries self.now.labels }
    {
        self.labels.as_slice()
    }

    /// What an entry costs. It looks through what is said of entries.
    pub fn of_entry(&self, entry: EntryNo) -> u32
        ensures { result ≡ entry_cost self.now entry.0 }
    {
        for one in self.entries.as_slice() {
            if one.0.0 == entry.0 {
                return one.1;
            }
        }
        0
    }

    /// What an edge of a dimension with a label costs. It looks through what is said of labels.
    pub fn of_label(&self, dim: DimId, label: LabelId) -> u32
        ensures { result ≡ label_cost self.now dim.0 label.0 }
    {
        for one in self.labels.as_slice() {
            if one.0.0 == dim.0 && one.1.0 == label.0 {
                return one.2;
            }
        }
        0
    }

    /// A copy.
    pub fn copy(&self, alloc: Global) -> Result<Costs, OutOfMemory>
        ensures { IfOk result (λ made. made ≡ self.now) }
    {
        Ok(Costs {
            entries: List::from_slice(alloc, self.entries.as_slice())?,
            labels: List::from_slice(alloc, self.labels.as_slice())?,
        })
    }
}
