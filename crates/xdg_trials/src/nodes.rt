//! Sets of nodes, and loops over them.

ghost use Rattle.std.specs.Prelude.{◌≡◌, IfOk};

use std::alloc::Global;
use std::test::Fail;
use xdg_base::{NodeId, OutOfMemory};
use xdg_nodeset::NodeSet;

// A loop over the nodes, as a caller writes it.
fn listed(alloc: Global, set: &NodeSet) -> Result<Vec<u8>, OutOfMemory>
    ensures { IfOk result (λ list. list.items ≡ set.now) }
{
    let mut list = Vec::new(alloc);
    for node in set.iter() {
        list.push(node.0)?;
    }
    Ok(list)
}

#[test]
fn nodes_between_and_one_more(rt: HostRuntime) -> Result<(), Fail> {
    let mut set = NodeSet::between(NodeId(5), NodeId(2));
    set.insert(NodeId(100));
    assert_eq!(rt;
        listed(rt.alloc(), &set)?.as_slice(),
        [3, 4, 100].as_slice()
    );
    let mut nodes = set.iter();
    assert_eq!(rt; nodes.next_back(), Some(NodeId(100)));
    assert_eq!(rt; nodes.next(), Some(NodeId(3)));
    Ok(())
}
