//! What the statements of a costs text come to, one behind the other.

ghost use Rattle.std.specs.Prelude.{◌≡◌, ◌-◌, Some, IfOk, IfErr, List, [], false, length, slice_index_or};
ghost use Rattle.xdg_best.specs.declared.statements.Statement as statements;
ghost use Rattle.xdg_best.specs.declared.statements.Statement.TheVariants as said_;
ghost use Rattle.xdg_best.specs.Building.{Built, Adds, Comes, IsFreshPlace, has_place};
ghost use Rattle.xdg_best.specs.Meaning.{entry_fault, first_fault};

use crate::naming::place_of;
use crate::statements::Statement;
use std::alloc::Global;
use xdg_ast::{Name, Num};
use xdg_base::{Cause, DimId, EntryNo, Fault, LabelId, List, OutOfMemory, Stop};
use xdg_problem::Costs;
use xdg_types::TypeTable;

/// The costs that have been said so far.
#[derive(Drop)]
struct Building {
    entries: List<(EntryNo, u32)>,
    labels: List<(DimId, LabelId, u32)>,
    // For each entry, by its number from 0, whether its cost has been said.
    seen: Vec<bool>,
}

/// The place of an entry by its number, or what is wrong with that. The flags say of each entry whether its cost has been said.
fn entry_place(entries: u32, number: &Num, seen: &[bool]) -> Result<u32, Fault>
    requires { length seen.now ≡ entries }
    ensures ok { IfOk result (IsFreshPlace entries number.now seen.now) }
    ensures err { IfErr result (λ fault. entry_fault entries number.now (slice_index_or seen.now (number.now.value - 1) false) ≡ Some fault) }
{
    let value = number.value;
    if value == 0 || value > entries {
        return Err(Fault::at(Cause::NoEntry, number.span.start));
    }
    let place = value - 1;
    if seen[place as usize] {
        return Err(Fault::at(Cause::Twice, number.span.start));
    }
    Ok(place)
}

/// Whether a cost has been said of a dimension with a label.
fn has_place(labels: &[(DimId, LabelId, u32)], place: (DimId, LabelId)) -> bool
    ensures { result ≡ has_place labels.now place }
{
    let dim = place.0.0;
    let label = place.1.0;
    labels.iter().any(|one| one.0.0 == dim && one.1.0 == label)
}

impl Building {
    /// Nothing yet, where there are so many entries.
    fn start(alloc: Global, types: &TypeTable, entries: u32) -> Result<Building, OutOfMemory>
        ensures { IfOk result (Built types.now entries []) }
    {
        Ok(Building {
            entries: List::new(alloc),
            labels: List::new(alloc),
            seen: vec![in alloc; false; entries as usize]?,
        })
    }

    /// Adds the cost of an entry.
    fn add_entry(
        &mut self,
        types: &TypeTable,
        entries: u32,
        number: &Num,
        cost: u32,
    ) -> Result<(), Stop>
        requires { length self.old.seen.items ≡ entries }
        ensures { (earlier : List statements.Statement) → Built types.now entries earlier self.old
            → Adds types.now entries earlier (said_.Entry number.now cost) result self.new }
    {
        match entry_place(entries, number, self.seen.as_slice()) {
            Ok(place) => {
                self.seen[place as usize] = true;
                self.entries.push((EntryNo(place), cost))?;
                Ok(())
            }
            Err(fault) => Err(Stop::Fault(fault)),
        }
    }

    /// Adds the cost of an edge.
    fn add_edge(
        &mut self,
        types: &TypeTable,
        entries: u32,
        dim: &Name,
        label: &Name,
        cost: u32,
    ) -> Result<(), Stop>
        ensures { (earlier : List statements.Statement) → Built types.now entries earlier self.old
            → Adds types.now entries earlier (said_.Edge dim.now label.now cost) result self.new }
    {
        match place_of(types, dim, label) {
            Ok(place) => {
                if has_place(self.labels.as_slice(), place) {
                    return Err(Stop::Fault(Fault::at(Cause::Twice, label.span.start)));
                }
                self.labels.push((place.0, place.1, cost))?;
                Ok(())
            }
            Err(fault) => Err(Stop::Fault(fault)),
        }
    }

    /// Adds what a statement says.
    fn add(&mut self, types: &TypeTable, entries: u32, statement: &Statement) -> Result<(), Stop>
        requires { length self.old.seen.items ≡ entries }
        ensures { (earlier : List statements.Statement) → Built types.now entries earlier self.old
            → Adds types.now entries earlier statement.now result self.new }
    {
        match statement {
            Statement::Entry(number, cost) => self.add_entry(types, entries, number, *cost),
            Statement::Edge(dim, label, cost) => self.add_edge(types, entries, dim, label, *cost),
        }
    }
}

/// The costs that statements say, or the first of their faults.
pub(crate) fn build(
    alloc: Global,
    types: &TypeTable,
    entries: u32,
    said: &[Statement],
) -> Result<Costs, Stop>
    ensures { Comes (first_fault types.now entries [] said.now) types.now said.now result }
{
    let mut made = Building::start(alloc, types, entries)?;
    for statement in said {
        match made.add(types, entries, statement) {
            Ok(()) => {}
            Err(stop) => return Err(stop),
        }
    }
    let Building {
        entries: entry_costs,
        labels: label_costs,
        seen: _,
    } = made;
    Ok(Costs::of(entry_costs, label_costs))
}
