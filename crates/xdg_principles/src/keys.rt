//! Keys of dimensions and arguments.

ghost use Rattle.std.specs.Prelude.{◌≡◌, flat_map};
ghost use Rattle.std.specs.Option.{option_copied};
ghost use Rattle.xdg_names.specs.First.{first};
ghost use Rattle.xdg_names.specs.Texts.{has_text};
ghost use Rattle.xdg_types.specs.NameFaults as names;
ghost use Rattle.xdg_types.specs.Parts.{keys};
ghost use Rattle.xdg_ast.specs.Texts.{texts};
ghost use Rattle.xdg_principles.specs.Uses as spec;

use xdg_ast::{Name, Pair};
use xdg_base::Fault;
use xdg_names::{Index, earlier};
use xdg_types::unknown;

/// Whether a key stands there.
pub(crate) fn has_key<T>(pairs: &[Pair<T>], key: &str) -> bool
    ensures { result ≡ has_text (texts (keys pairs.now)) key.now }
{
    for pair in pairs {
        if pair.key.text.as_str() == key {
            return true;
        }
    }
    false
}

/// What stands under a key first.
pub(crate) fn under<'a, T>(pairs: &'a [Pair<T>], key: &str) -> Option<&'a T>
    ensures { option_copied result ≡ spec.under pairs.now key.now }
{
    for pair in pairs {
        if pair.key.text.as_str() == key {
            return Some(&pair.value);
        }
    }
    None
}

/// The first of the dimensions that isn't among these.
pub(crate) fn unknown_among(known: &Index, pairs: &[Pair<Name>]) -> Option<Fault>
    ensures { result ≡ first (flat_map (names.unknown known.now) (spec.values pairs.now)) }
{
    let mut found = None;
    for pair in pairs {
        found = earlier(found, unknown(known, &pair.value));
    }
    found
}
