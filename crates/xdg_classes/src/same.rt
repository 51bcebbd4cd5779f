//! Types that are the same.

ghost use Rattle.std.specs.Prelude.{◌≡◌, IsTrue, map};
ghost use Rattle.xdg_domain.specs.Shapes.{shape};
ghost use Rattle.xdg_facts.specs.Membership.{In};
ghost use Rattle.xdg_terms.specs.Faults.{fields_in};

use xdg_base::Text;
use xdg_domain::Ty;

/// Whether a type is among these.
pub(crate) fn has_type(types: &[&Ty], ty: &Ty) -> bool
    ensures { IsTrue result → In (map (λ one. shape one.now) types.now) (shape ty.now) }
{
    for one in types {
        if same_type(one, ty) {
            return true;
        }
    }
    false
}

/// Whether two lists have the same texts in the same order.
fn same_texts(one: &[Text], other: &[Text]) -> bool
    ensures { IsTrue result → one.now ≡ other.now }
{
    if one.len() != other.len() {
        return false;
    }
    for at in 0..one.len() {
        if one[at].as_str() != other[at].as_str() {
            return false;
        }
    }
    true
}

/// Whether two types are the same, part by part. It answers `true` for equal types, which no clause says: types that are
/// told apart are only looked at once more.
#[cycle(same_type)]
pub(crate) fn same_type(one: &Ty, other: &Ty) -> bool
    ensures { IsTrue result → shape one.now ≡ shape other.now }
{
    match (one, other) {
        (Ty::Domain(texts), Ty::Domain(others)) => same_texts(texts.as_slice(), others.as_slice()),
        (Ty::Tuple(types), Ty::Tuple(others)) => same_types(types.as_slice(), others.as_slice()),
        (Ty::Bool, Ty::Bool) => true,
        (Ty::Int, Ty::Int) => true,
        (Ty::Str, Ty::Str) => true,
        (Ty::Set(part), Ty::Set(given)) => same_type(part.get(), given.get()),
        (Ty::ISet(part), Ty::ISet(given)) => same_type(part.get(), given.get()),
        (Ty::Card, Ty::Card) => true,
        (Ty::Valency(part), Ty::Valency(given)) => same_type(part.get(), given.get()),
        (Ty::Map(key, value), Ty::Map(given, image)) => {
            same_type(key.get(), given.get()) && same_type(value.get(), image.get())
        }
        (Ty::Rec(fields), Ty::Rec(others)) => same_fields(fields.as_slice(), others.as_slice()),
        _ => false,
    }
}

/// Whether types are the same, one by one.
#[cycle(same_type)]
fn same_types(one: &[Ty], other: &[Ty]) -> bool
    ensures { IsTrue result → map shape one.now ≡ map shape other.now }
{
    if one.len() != other.len() {
        return false;
    }
    for at in 0..one.len() {
        if !same_type(&one[at], &other[at]) {
            return false;
        }
    }
    true
}

/// Whether fields have the same names and types, one by one.
#[cycle(same_type)]
fn same_fields(one: &[(Text, Ty)], other: &[(Text, Ty)]) -> bool
    ensures { IsTrue result → fields_in one.now ≡ fields_in other.now }
{
    if one.len() != other.len() {
        return false;
    }
    for at in 0..one.len() {
        if one[at].0.as_str() != other[at].0.as_str() || !same_type(&one[at].1, &other[at].1) {
            return false;
        }
    }
    true
}
