//! Lists that are turned.

ghost use Rattle.std.specs.Prelude.{◌≡◌, ◌++◌, reverse, OnOk};

use xdg_base::{List, OutOfMemory};

/// Moves elements behind others, the last first.
#[tactic(auto, using(xdg_facts::proofs::Turns::turn_more, xdg_facts::proofs::Turns::turn_end))]
pub(crate) fn turn<T: Drop>(items: &mut List<T>, turned: &mut List<T>) -> Result<(), OutOfMemory>
    ensures { OnOk result (turned.new ≡ turned.old ++ reverse items.old) }
{
    while let Some(item) = items.pop() {
        turned.push(item)?;
    }
    Ok(())
}
