//! Types without names.

ghost use Rattle.std.specs.Prelude.{◌≡◌};
ghost use Rattle.xdg_domain.specs.Shapes.{constants, shape};

use xdg_base::{Boxed, List, Text};

/// A type without names: what a grammar's type terms stand for.
#[cycle(ty)]
#[derive(Debug, Drop)]
pub enum Ty {
    /// `{a b c}`: these constants.
    Domain(List<Text>),
    /// `tuple(T U)`: one constant of each of these domains.
    Tuple(List<Ty>),
    /// `bool`: `true` or `false`.
    Bool,
    /// `int`: a number from 0 to 4,294,967,295.
    Int,
    /// `string`: a text.
    Str,
    /// `set(T)`: a finite set of constants of a domain or of tuples; sets are joined by union.
    Set(Boxed<Ty>),
    /// `iset(T)`: the same, joined by intersection.
    ISet(Boxed<Ty>),
    /// `card`: one or more of the numbers from 0 to 127.
    Card,
    /// `valency(T)`: a cardinality for each constant of a domain.
    Valency(Boxed<Ty>),
    /// `map(T U)`: a value for each constant of a domain.
    Map(Boxed<Ty>, Boxed<Ty>),
    /// `{f: T g: U}`: a value for each field.
    Rec(List<(Text, Ty)>),
}

impl Ty {
    /// The constants of a domain, in order; none of another type.
    pub fn constants(&self) -> &[Text]
        ensures { result.now ≡ constants (shape self.now) }
    {
        match self {
            Ty::Domain(constants) => constants.as_slice(),
            _ => &[],
        }
    }
}
