//! At which kinds of values principle uses look.

ghost use Rattle.std.specs.Prelude.{◌≡◌};
ghost use Rattle.xdg_propcore.specs.UseKinds as spec;

use crate::wake::Wake;
use xdg_problem::{
    Group, dim_of, looks_at_attrs, looks_at_entries, looks_at_first, looks_at_second,
};

/// A wake set with kinds more, if they are wanted.
fn with_kind(wanted: bool, kind: Wake, wakes: Wake) -> Wake
    ensures { result.0 ≡ spec.with_kind wanted kind.0 wakes.0 }
{
    if !wanted {
        return wakes;
    }
    Wake(wakes.0 | kind.0)
}

/// The kinds of values at which the tests of a principle use look, where it is none of a rule or a bound.
pub(crate) fn kinds_of(group: &Group) -> Wake
    requires { spec.AreSmall group.now }
    ensures { spec.HasKinds group.now result.0 }
{
    let principle = &group.principle;
    let one = dim_of(group, 0);
    let two = dim_of(group, 1);
    let second = with_kind(looks_at_second(principle), Wake::edges(two), Wake(0));
    let first = with_kind(looks_at_first(principle), Wake::edges(one), second);
    let attrs = with_kind(looks_at_attrs(principle), Wake::attrs(one), first);
    with_kind(looks_at_entries(principle), Wake::entries(), attrs)
}
