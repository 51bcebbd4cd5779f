//! Where entries say their words.

ghost use Rattle.std.specs.Prelude.{◌↔◌, ◌≡◌, IsTrue, codes};
ghost use Rattle.xdg_domain.specs.Shapes.{shape, text};
ghost use Rattle.xdg_types.specs.Table.{typed};
ghost use Rattle.xdg_packed.specs.Entries.{TellsWordPlace};
ghost use Rattle.xdg_packed.specs.WordFields.{TellsWordField, TellsWordIn};

use xdg_base::Text;
use xdg_domain::Ty;
use xdg_types::{DimType, TypeTable};

/// The place of the dimension `lex` among the used dimensions, and that of its feature `word` of type `string` among its
/// features, both from 0, if they are there.
pub fn word_place(types: &TypeTable) -> Option<(usize, usize)>
    ensures { TellsWordPlace types.now result }
{
    let dims = types.dims();
    let used = types.used();
    for (place, at) in used.iter().enumerate() {
        if let Some(field) = word_in(dims, *at) {
            return Some((place, field));
        }
    }
    None
}

/// The place of the feature `word` in the dimension at that place, if that is `lex`.
fn word_in(dims: &[DimType], at: usize) -> Option<usize>
    ensures { TellsWordIn dims.now at result }
{
    match dims.get(at) {
        None => None,
        Some(dim) => {
            if is_lex(dim) {
                return word_field(dim.fields.as_slice());
            }
            None
        }
    }
}

/// Whether it is called `lex`.
fn is_lex(dim: &DimType) -> bool
    ensures { IsTrue result ↔ (dim.now.name ≡ codes "lex") }
{
    dim.name.as_str() == "lex"
}

/// The place of the first feature `word` of type `string`.
fn word_field(fields: &[(Text, Ty)]) -> Option<usize>
    ensures { TellsWordField (typed fields.now) result }
{
    for (place, field) in fields.iter().enumerate() {
        if is_word(field) {
            return Some(place);
        }
    }
    None
}

/// Whether it is a feature `word` of type `string`.
fn is_word(field: &(Text, Ty)) -> bool
    ensures { IsTrue result ↔ ((field.now.0 ≡ codes "word") × (shape field.now.1 ≡ text)) }
{
    field.0.as_str() == "word" && is_string(&field.1)
}

/// Whether it is the type `string`.
fn is_string(ty: &Ty) -> bool
    ensures { IsTrue result ↔ (shape ty.now ≡ text) }
{
    match ty {
        Ty::Str => true,
        _ => false,
    }
}
