//! The numbers of names and values.

ghost use Rattle.std.specs.Prelude.{◌≡◌, ◌<◌, IfSome, length};
ghost use Rattle.xdg_reading.specs.Names.{same_texts, same_shown, dim_number, label_number, value_number};

use xdg_base::Text;
use xdg_problem::{DimPlan, Shown};

/// Whether two lists have the same texts.
fn same_texts(xs: &[Text], ys: &[Text]) -> bool
    ensures { result ≡ same_texts xs.now ys.now }
{
    if xs.len() != ys.len() {
        return false;
    }
    for (k, x) in xs.iter().enumerate() {
        if x.as_str() != ys[k].as_str() {
            return false;
        }
    }
    true
}

/// Whether two values are shown alike.
fn same_shown(x: &Shown, y: &Shown) -> bool
    ensures { result ≡ same_shown x.now y.now }
{
    match x {
        Shown::One(text) => match y {
            Shown::One(other) => text.as_str() == other.as_str(),
            Shown::Many(_) => false,
        },
        Shown::Many(texts) => match y {
            Shown::One(_) => false,
            Shown::Many(others) => same_texts(texts.as_slice(), others.as_slice()),
        },
    }
}

/// The number of the dimension with this name.
pub(crate) fn dim_number(dims: &[DimPlan], name: &Text) -> Option<usize>
    ensures { result ≡ dim_number dims.now name.now }
{
    dims.iter()
        .position(|plan| plan.name.as_str() == name.as_str())
}

/// The number of the first of these labels with this name.
///
/// The time is linear in their number.
#[tactic(auto, using(crate::proofs::Turns::label_within))]
pub fn label_number(labels: &[Text], name: &Text) -> Option<usize>
    ensures is { result ≡ label_number labels.now name.now }
    ensures within { IfSome result (λ label. label < length labels.now) }
{
    labels
        .iter()
        .position(|label| label.as_str() == name.as_str())
}

/// The number of a value.
pub(crate) fn value_number(values: &[Shown], value: &Shown) -> Option<usize>
    ensures { result ≡ value_number values.now value.now }
{
    values.iter().position(|v| same_shown(v, value))
}
