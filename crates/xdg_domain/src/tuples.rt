//! The numbers of constants and of tuples.

ghost use Rattle.std.specs.Prelude.{◌≡◌, ℕ, ◌<◌, ◌≤◌, ◌+◌, ◌-◌, ◌*◌, ◌^◌, List, length, min, get_or, map};
ghost use Rattle.xdg_domain.specs.Shapes.{shape, shapes_of, constants, sizes_in, product, count, IsSmall, IsTuple, IsTupleType};
ghost use Rattle.xdg_domain.specs.Sized.{sizes_of};
ghost use Rattle.xdg_domain.specs.Tuples.{index, places, InRange, TupleLaws};
ghost use Rattle.xdg_domain.specs.Values.{AllBelow};

use crate::types::Ty;
use std::marker::Model;

/// How many constants a domain, or how many tuples a tuple type has.
pub fn count(ty: &Ty) -> u16
    requires { IsSmall (shape ty.now) }
    ensures { result ≡ count (shape ty.now) }
{
    match ty {
        Ty::Domain(_) => size(ty) as u16,
        Ty::Tuple(types) => tuples(types.as_slice()) as u16,
        _ => 0,
    }
}

/// How many constants or tuples there are, a count that stops at the greatest u64.
pub(crate) fn members(ty: &Ty) -> u64
    ensures { result ≡ min (count (shape ty.now)) (2 ^ 64 - 1) }
{
    match ty {
        Ty::Domain(_) => size(ty),
        Ty::Tuple(types) => tuples(types.as_slice()),
        _ => 0,
    }
}

/// How many constants the domain has.
fn size(ty: &Ty) -> u64
    ensures size { result ≡ length (constants (shape ty.now)) }
    ensures fits { result ≤ 2 ^ 64 - 1 }
{
    match ty {
        Ty::Domain(constants) => constants.len() as u64,
        _ => 0,
    }
}

/// How many tuples there are of these domains, a count that stops at the greatest u64.
fn tuples(fields: &[Ty]) -> u64
    ensures { result ≡ min (product (sizes_of fields.now)) (2 ^ 64 - 1) }
{
    let mut product = 1u64;
    for field in fields {
        product = product.saturating_mul(size(field));
    }
    product
}

/// The number of a tuple, given the number of one constant for each field. The first field counts slowest.
pub fn tuple_index(ty: &Ty, numbers: &[u8]) -> u16
    requires tuple { IsTupleType (shape ty.now) }
    requires range { InRange (sizes_in (shape ty.now)) numbers.now }
    ensures number { result ≡ index (sizes_in (shape ty.now)) numbers.now }
    ensures below { result < count (shape ty.now) }
{
    match ty {
        Ty::Tuple(types) => index_of(types.as_slice(), numbers),
        _ => 0,
    }
}

/// The number of the tuple with these constants.
fn index_of(fields: &[Ty], numbers: &[u8]) -> u16
    requires few { product (sizes_of fields.now) ≤ 1024 }
    requires range { InRange (sizes_of fields.now) numbers.now }
    ensures number { result ≡ index (sizes_of fields.now) numbers.now }
    ensures below { result < product (sizes_of fields.now) }
{
    let mut number = 0u64;
    for (i, field) in fields.iter().enumerate() {
        number = number * size(field) + u64::from(numbers[i]);
    }
    number as u16
}

/// A tuple of a type, seen as the list of the numbers of its constants, one for each field in order.
#[derive(Drop)]
pub struct Tuple<'a> {
    fields: &'a [Ty],
    number: u16,
}

impl<'a> Model for Tuple<'a> {
    ghost use Rattle.std.specs.Prelude.{List, ℕ, ◌<◌, ◌≤◌};
    ghost use Rattle.xdg_domain.specs.Shapes.{product};
    ghost use Rattle.xdg_domain.specs.Sized.{sizes_of};
    ghost use Rattle.xdg_domain.specs.Tuples.{places};
    ghost use Rattle.xdg_domain.specs.Values.{AllBelow};

    ghost Value = { List ℕ };

    ghost view = { λ tuple. places (sizes_of tuple.fields.now) tuple.number };

    ghost invariant = { λ tuple. AllBelow 65 (sizes_of tuple.fields.now) × (product (sizes_of tuple.fields.now) ≤ 1024)
        × (tuple.number < product (sizes_of tuple.fields.now)) };
}

/// The tuple with that number, which counts the first field slowest. It takes no memory.
pub fn tuple_of<'a>(ty: &'a Ty, number: u16) -> Tuple<'a>
    requires tuple { IsTupleType (shape ty.now) }
    requires below { number < count (shape ty.now) }
    ensures places { result ≡ places (sizes_in (shape ty.now)) number }
    ensures range { InRange (sizes_in (shape ty.now)) result }
{
    match ty {
        Ty::Tuple(types) => tuple_over(types.as_slice(), number),
        _ => tuple_over(&[], 0),
    }
}

/// The tuple of these domains with that number.
fn tuple_over<'a>(fields: &'a [Ty], number: u16) -> Tuple<'a>
    requires tuple { IsTuple (shapes_of (map shape fields.now)) }
    requires below { number < product (sizes_of fields.now) }
    ensures places { result ≡ places (sizes_of fields.now) number }
    ensures range { InRange (sizes_of fields.now) result }
{
    Tuple { fields, number }
}

/// The number of the constant of one field of the tuple with that number.
fn constant_at(fields: &[Ty], number: u16, field: usize) -> u8
    requires small { AllBelow 65 (sizes_of fields.now) }
    requires few { product (sizes_of fields.now) ≤ 1024 }
    requires below { number < product (sizes_of fields.now) }
    requires field { field < length fields.now }
    ensures { result ≡ get_or (places (sizes_of fields.now) number) field 0 }
{
    let (_, more) = fields.split_at(field + 1);
    let constants = size(&fields[field]);
    let later = tuples(more);
    (u64::from(number) / later % constants) as u8
}

impl<'a> Tuple<'a> {
    /// How many fields there are.
    pub fn len(&self) -> usize
        ensures { result ≡ length self.now }
    {
        self.fields.len()
    }

    /// The number of the constant of the field with that place, which counts from 0.
    pub fn at(&self, field: usize) -> u8
        requires { field < length self.now }
        ensures { result ≡ get_or self.now field 0 }
    {
        constant_at(self.fields, self.number, field)
    }
}

/// A law, and nothing to run: [`tuple_index`] and [`tuple_of`] are inverse to one another. Numbers with mixed bases, one base a
/// field, the first field counting slowest.
pub fn tuple_laws()
    ensures { (sizes : List ℕ) → TupleLaws sizes }
{}
