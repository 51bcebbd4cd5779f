//! Bindings of the names in formulas to nodes.

ghost use Rattle.std.specs.Prelude.{◌≡◌};
ghost use Rattle.xdg_problem.specs.Truths.{bound, stands, unbound};

use xdg_base::NodeId;

/// A node for each name, both by their numbers.
pub type Binding = [u8; 256];

/// The node for which a name stands.
pub fn node_of(binding: &Binding, name: u8) -> NodeId
    ensures { result.0 ≡ stands binding.now name }
{
    NodeId(binding[usize::from(name)])
}

/// The binding in which a name stands for a node, and each other for what it stood for.
#[tactic(auto, using(crate::proofs::Bindings::bound_table))]
pub fn bind(binding: &Binding, name: u8, node: u8) -> Binding
    ensures { stands result ≡ bound (stands binding.now) name node }
{
    let mut inside = *binding;
    inside[usize::from(name)] = node;
    inside
}

/// Makes a name stand for a node.
#[tactic(auto, using(crate::proofs::Bindings::bound_table))]
pub fn rebind(binding: &mut Binding, name: u8, node: u8)
    ensures { stands binding.new ≡ bound (stands binding.old) name node }
{
    binding[usize::from(name)] = node;
}

/// The binding in which each name stands for the first node.
pub fn none_bound() -> Binding
    ensures { stands result ≡ unbound }
{
    [0; 256]
}
