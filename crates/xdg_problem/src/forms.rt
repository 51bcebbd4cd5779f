//! The table of principles, as grammar texts use them: which dimensions and arguments each has.

ghost use Rattle.std.specs.Prelude.{◌≡◌};
ghost use Rattle.std.specs.Option.{option_copied};
ghost use Rattle.xdg_problem.specs.Forms as spec;

use crate::parts::Principle;

/// One of a principle's dimensions, in the order of its keys.
#[derive(Clone, Copy, Debug)]
pub enum Which {
    /// The first, or the only one.
    First,
    /// The second.
    Second,
    /// The third.
    Third,
}

/// How many dimensions a principle has. The key of one alone is `D`; those of more are `D1`, `D2`, `D3`.
#[derive(Clone, Copy, Debug)]
pub enum Dims {
    /// `D`.
    One,
    /// `D1` and `D2`.
    Two,
    /// `D1`, `D2` and `D3`.
    Three,
}

/// A type of single values: a domain or a tuple type.
#[derive(Clone, Copy, Debug)]
pub enum Element {
    /// The labels of a dimension.
    Labels(Which),
    /// Any domain or tuple type, one and the same for all arguments of a use that speak of it.
    Shared,
}

/// The type that a feature or an attribute has to have.
#[derive(Clone, Copy, Debug)]
pub enum Typing {
    /// One element.
    One(Element),
    /// A `set` or an `iset` of elements.
    Set(Element),
    /// A `valency` over the labels of a dimension.
    Valency(Which),
    /// A `map` from the labels of a dimension to a `set` or an `iset` of elements.
    Map(Which, Element),
}

/// What a dimension gives to nodes.
#[derive(Clone, Copy, Debug)]
pub enum Sort {
    /// Features, of which a node has those of its entry.
    Feature,
    /// Attributes, which an analysis gives to each node.
    Attribute,
}

/// What an argument has to name or to be.
#[derive(Clone, Copy, Debug)]
pub enum Wanted {
    /// A feature or an attribute of a dimension.
    Member(Sort, Which, Typing),
    /// Different labels of a dimension, in square brackets.
    Labels(Which),
    /// `true` or `false`.
    Truth,
}

/// What an argument is that a use leaves out.
#[derive(Clone, Copy, Debug)]
pub enum Preset {
    /// Nothing: it may not be left out.
    Required,
    /// `false`.
    False,
    /// The feature `in`.
    In,
    /// The feature `out`.
    Out,
}

/// The name of an argument.
#[derive(Clone, Copy, Debug)]
pub enum Key {
    /// `Agr`.
    Agr,
    /// `Agr1`.
    Agr1,
    /// `Agr2`.
    Agr2,
    /// `Agree`.
    Agree,
    /// `Agrs`.
    Agrs,
    /// `Blocks`.
    Blocks,
    /// `Connected`.
    Connected,
    /// `DisjointDaughters`.
    DisjointDaughters,
    /// `Govern`.
    Govern,
    /// `In`.
    In,
    /// `Link`.
    Link,
    /// `On`.
    On,
    /// `Order`.
    Order,
    /// `Out`.
    Out,
    /// `Yields`.
    Yields,
}

/// An argument that a principle has.
#[derive(Clone, Copy, Debug)]
pub struct Parameter {
    /// Its name.
    pub key: Key,
    /// What it has to be.
    pub wanted: Wanted,
    /// What it is where it is left out.
    pub preset: Preset,
}

/// The dimensions and the arguments of a principle: at most three arguments, in the order of the table.
#[derive(Clone, Copy, Debug)]
pub struct Form {
    /// Its dimensions.
    pub dims: Dims,
    /// Its first argument.
    pub first: Option<Parameter>,
    /// Its second argument.
    pub second: Option<Parameter>,
    /// Its third argument.
    pub third: Option<Parameter>,
}

impl Dims {
    /// The key of a dimension in `dims`.
    pub fn key(self, which: Which) -> &'static str
        ensures { result.now ≡ spec.dim_key self which }
    {
        match self {
            Dims::One => "D",
            Dims::Two | Dims::Three => match which {
                Which::First => "D1",
                Which::Second => "D2",
                Which::Third => "D3",
            },
        }
    }
}

impl Key {
    /// Its characters.
    pub fn text(self) -> &'static str
        ensures { result.now ≡ spec.key_text self }
    {
        match self {
            Key::Agr => "Agr",
            Key::Agr1 => "Agr1",
            Key::Agr2 => "Agr2",
            Key::Agree => "Agree",
            Key::Agrs => "Agrs",
            Key::Blocks => "Blocks",
            Key::Connected => "Connected",
            Key::DisjointDaughters => "DisjointDaughters",
            Key::Govern => "Govern",
            Key::In => "In",
            Key::Link => "Link",
            Key::On => "On",
            Key::Order => "Order",
            Key::Out => "Out",
            Key::Yields => "Yields",
        }
    }
}

impl Preset {
    /// The name of the feature that it is, if it is one.
    pub fn feature(self) -> Option<&'static str>
        ensures { option_copied result ≡ spec.preset_feature self }
    {
        match self {
            Preset::In => Some("in"),
            Preset::Out => Some("out"),
            Preset::Required | Preset::False => None,
        }
    }
}

/// A required argument.
fn required(key: Key, wanted: Wanted) -> Option<Parameter>
    ensures { result ≡ spec.required key wanted }
{
    Some(Parameter {
        key,
        wanted,
        preset: Preset::Required,
    })
}

/// A truth value that is `false` where it is left out.
fn flag(key: Key) -> Option<Parameter>
    ensures { result ≡ spec.flag key }
{
    Some(Parameter {
        key,
        wanted: Wanted::Truth,
        preset: Preset::False,
    })
}

/// The number of edges for each label of the dimension, by default the feature of that name.
fn counted(key: Key, preset: Preset) -> Option<Parameter>
    ensures { result ≡ spec.counted key preset }
{
    let wanted = Wanted::Member(Sort::Feature, Which::First, Typing::Valency(Which::First));
    Some(Parameter {
        key,
        wanted,
        preset,
    })
}

/// A feature of the first dimension.
fn feature(key: Key, typing: Typing) -> Option<Parameter>
    ensures { result ≡ spec.feature key typing }
{
    required(key, Wanted::Member(Sort::Feature, Which::First, typing))
}

/// An attribute of the first dimension.
fn attribute(key: Key, element: Element) -> Option<Parameter>
    ensures { result ≡ spec.attribute key element }
{
    required(
        key,
        Wanted::Member(Sort::Attribute, Which::First, Typing::One(element)),
    )
}

fn having(
    dims: Dims,
    first: Option<Parameter>,
    second: Option<Parameter>,
    third: Option<Parameter>,
) -> Form
    ensures { result ≡ spec.has dims first second third }
{
    Form {
        dims,
        first,
        second,
        third,
    }
}

/// The principle that links two dimensions by a feature of the third.
fn linking(typing: Typing) -> Form
    ensures { result ≡ spec.linking typing }
{
    let link = required(
        Key::Link,
        Wanted::Member(Sort::Feature, Which::Third, typing),
    );
    having(Dims::Three, link, None, None)
}

/// What a principle has in grammar texts. A rule and a bound stand in none: they are given one dimension and no argument.
pub fn form_of(principle: &Principle) -> Form
    ensures { result ≡ spec.form_of principle.now }
{
    match principle {
        Principle::Dag => having(
            Dims::One,
            flag(Key::Connected),
            flag(Key::DisjointDaughters),
            None,
        ),
        Principle::Valency => having(
            Dims::One,
            counted(Key::In, Preset::In),
            counted(Key::Out, Preset::Out),
            None,
        ),
        Principle::Order => having(
            Dims::One,
            required(Key::Order, Wanted::Labels(Which::First)),
            attribute(Key::On, Element::Labels(Which::First)),
            flag(Key::Yields),
        ),
        Principle::Agr => having(
            Dims::One,
            attribute(Key::Agr, Element::Shared),
            feature(Key::Agrs, Typing::Set(Element::Shared)),
            None,
        ),
        Principle::Agreement => having(
            Dims::One,
            attribute(Key::Agr1, Element::Shared),
            attribute(Key::Agr2, Element::Shared),
            feature(Key::Agree, Typing::Set(Element::Labels(Which::First))),
        ),
        Principle::Government => having(
            Dims::One,
            attribute(Key::Agr, Element::Shared),
            feature(Key::Govern, Typing::Map(Which::First, Element::Shared)),
            None,
        ),
        _ => form_of_several(principle),
    }
}

/// The same of the principles of several dimensions, and of those that take no argument.
fn form_of_several(principle: &Principle) -> Form
    ensures { result ≡ spec.form_of_several principle.now }
{
    let path = Typing::Map(Which::First, Element::Labels(Which::Second));
    match principle {
        Principle::Climbing => having(Dims::Two, None, None, None),
        Principle::Barriers => {
            let labels = Typing::Set(Element::Labels(Which::Second));
            let wanted = Wanted::Member(Sort::Feature, Which::Second, labels);
            having(Dims::Two, required(Key::Blocks, wanted), None, None)
        }
        Principle::LinkingEnd => linking(path),
        Principle::LinkingDaughter => linking(path),
        Principle::LinkingMother => linking(path),
        Principle::LinkingBelowStart => linking(path),
        Principle::LinkingAboveStart => linking(path),
        Principle::LinkingSisters => linking(path),
        Principle::LinkingNotDaughter => linking(Typing::Set(Element::Labels(Which::First))),
        _ => having(Dims::One, None, None, None),
    }
}
