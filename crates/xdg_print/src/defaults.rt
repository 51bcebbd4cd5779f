//! Whether the value of a key is the default.

ghost use Rattle.std.specs.Prelude.{◌≡◌, ◌↔◌, ◌==◌, ◌&&◌, [], ◌∷◌, length, Some, IsTrue};
ghost use Rattle.std.specs.List.{range_with_len};
ghost use Rattle.std.specs.Str.{bytes_eq};
ghost use Rattle.xdg_domain.specs.Defaults.{default};
ghost use Rattle.xdg_domain.specs.Shapes.{shape, IsMapped, IsType};
ghost use Rattle.xdg_domain.specs.declared.values.Value.{out-Value};
ghost use Rattle.xdg_print.specs.Defaulted as spec;

use crate::cards::{is_any, is_zero};
use xdg_domain::{CardSet, Ty, Value, count};

/// Whether the value is what a value of the type holds where nothing is said. It is asked of what a map may hold: no plain
/// type, and no record. The time is linear in the value.
pub(crate) fn is_default(ty: &Ty, value: &Value) -> bool
    requires right { IsType (shape ty.now) }
    requires mapped { IsMapped (shape ty.now) }
    ensures value { result ≡ spec.is_default (shape ty.now) (out-Value value.now) }
    ensures exact { IsTrue result ↔ (default (shape ty.now) ≡ Some value.now) }
{
    is_default_of(ty, value)
}

/// The same by the test alone.
#[cycle(defaults)]
fn is_default_of(ty: &Ty, value: &Value) -> bool
    requires { IsType (shape ty.now) }
    ensures { result ≡ spec.is_default (shape ty.now) (out-Value value.now) }
{
    match (ty, value) {
        (Ty::Set(_), Value::Set(numbers)) => numbers.as_slice().is_empty(),
        (Ty::ISet(of), Value::Set(numbers)) => is_full(numbers.as_slice(), count(of.get())),
        (Ty::Card, Value::Card(cards)) => is_any(cards),
        (Ty::Valency(key), Value::Valency(said)) => { are_zeros(said.as_slice(), count(key.get())) }
        (Ty::Map(key, of), Value::Map(said)) => {
            let entries = said.as_slice();
            if entries.len() != usize::from(count(key.get())) {
                return false;
            }
            for (place, entry) in entries.iter().enumerate() {
                if usize::from(entry.0) != place {
                    return false;
                }
                if !is_default_of(of.get(), &entry.1) {
                    return false;
                }
            }
            true
        }
        _ => false,
    }
}

/// Whether these are all numbers below the count, rising.
fn is_full(numbers: &[u16], count: u16) -> bool
    ensures { result ≡ bytes_eq numbers.now (range_with_len 0 count) }
{
    if numbers.len() != usize::from(count) {
        return false;
    }
    for (place, number) in numbers.iter().enumerate() {
        if usize::from(*number) != place {
            return false;
        }
    }
    true
}

/// Whether these are all keys below the count, rising, each with the number 0 alone.
fn are_zeros(entries: &[(u8, CardSet)], count: u16) -> bool
    ensures { result ≡ ((length entries.now == count) && spec.counts_up (λ ns. bytes_eq ns (0 ∷ [])) 0 entries.now) }
{
    if entries.len() != usize::from(count) {
        return false;
    }
    for (place, entry) in entries.iter().enumerate() {
        if usize::from(entry.0) != place {
            return false;
        }
        if !is_zero(&entry.1) {
            return false;
        }
    }
    true
}
