//! The table of principles: what each crate reads of one, beside its conditions.

ghost use Rattle.std.specs.Prelude.{◌≡◌};
ghost use Rattle.xdg_problem.specs.Names.{named, named_in};
ghost use Rattle.xdg_problem.specs.Principles as rows;

use crate::parts::{Linking, Principle};

/// The name of a principle: that in grammar texts, or `rule` or `bound`.
pub fn principle_name(principle: &Principle) -> &'static str
    ensures { result.now ≡ rows.name_of principle.now }
{
    match principle {
        Principle::Graph => "principle.graph",
        Principle::Entries => "principle.entries",
        Principle::Tree => "principle.tree",
        Principle::Dag => "principle.dag",
        Principle::Valency => "principle.valency",
        Principle::Order => "principle.order",
        Principle::Projectivity => "principle.projectivity",
        Principle::Agr => "principle.agr",
        Principle::Agreement => "principle.agreement",
        Principle::Government => "principle.government",
        Principle::Climbing => "principle.climbing",
        Principle::Barriers => "principle.barriers",
        Principle::LinkingEnd => "principle.linkingEnd",
        Principle::LinkingDaughter => "principle.linkingDaughter",
        Principle::LinkingMother => "principle.linkingMother",
        Principle::LinkingBelowStart => "principle.linkingBelowStart",
        Principle::LinkingAboveStart => "principle.linkingAboveStart",
        Principle::LinkingSisters => "principle.linkingSisters",
        Principle::LinkingNotDaughter => "principle.linkingNotDaughter",
        Principle::Rule(_) => "rule",
        Principle::Bound(_, _) => "bound",
    }
}

/// The principle that is called so in grammar texts, if there is one. It takes a few comparisons of texts.
#[tactic(auto, unfolding(crate::specs::Names::named))]
pub fn principle_named(name: &str) -> Option<Principle>
    ensures { result ≡ named name.now }
{
    match name {
        "principle.graph" => Some(Principle::Graph),
        "principle.entries" => Some(Principle::Entries),
        "principle.tree" => Some(Principle::Tree),
        "principle.dag" => Some(Principle::Dag),
        "principle.valency" => Some(Principle::Valency),
        "principle.order" => Some(Principle::Order),
        "principle.projectivity" => Some(Principle::Projectivity),
        _ => comparing_named(name),
    }
}

/// The same of the principles that compare values, and of those of several dimensions.
fn comparing_named(name: &str) -> Option<Principle>
    ensures { result ≡ named_in rows.comparing name.now }
{
    match name {
        "principle.agr" => Some(Principle::Agr),
        "principle.agreement" => Some(Principle::Agreement),
        "principle.government" => Some(Principle::Government),
        _ => multidimensional_named(name),
    }
}

/// The same of the principles of several dimensions.
fn multidimensional_named(name: &str) -> Option<Principle>
    ensures { result ≡ named_in rows.multidimensional name.now }
{
    match name {
        "principle.climbing" => Some(Principle::Climbing),
        "principle.barriers" => Some(Principle::Barriers),
        "principle.linkingEnd" => Some(Principle::LinkingEnd),
        "principle.linkingDaughter" => Some(Principle::LinkingDaughter),
        "principle.linkingMother" => Some(Principle::LinkingMother),
        "principle.linkingBelowStart" => Some(Principle::LinkingBelowStart),
        "principle.linkingAboveStart" => Some(Principle::LinkingAboveStart),
        "principle.linkingSisters" => Some(Principle::LinkingSisters),
        "principle.linkingNotDaughter" => Some(Principle::LinkingNotDaughter),
        _ => None,
    }
}

/// How a principle links, where it asks for edges that link.
pub fn linking_of(principle: &Principle) -> Option<Linking>
    ensures { result ≡ rows.linking_of principle.now }
{
    match principle {
        Principle::LinkingEnd => Some(Linking::End),
        Principle::LinkingDaughter => Some(Linking::Daughter),
        Principle::LinkingMother => Some(Linking::Mother),
        Principle::LinkingBelowStart => Some(Linking::BelowStart),
        Principle::LinkingAboveStart => Some(Linking::AboveStart),
        Principle::LinkingSisters => Some(Linking::Sisters),
        _ => None,
    }
}

/// Which of a principle's dimensions has its features.
pub fn feature_dim(principle: &Principle) -> usize
    ensures { result ≡ rows.feature_dim principle.now }
{
    match principle {
        Principle::Barriers => 1,
        Principle::LinkingEnd
        | Principle::LinkingDaughter
        | Principle::LinkingMother
        | Principle::LinkingBelowStart
        | Principle::LinkingAboveStart
        | Principle::LinkingSisters
        | Principle::LinkingNotDaughter => 2,
        Principle::Graph
        | Principle::Entries
        | Principle::Tree
        | Principle::Dag
        | Principle::Valency
        | Principle::Order
        | Principle::Projectivity
        | Principle::Agr
        | Principle::Agreement
        | Principle::Government
        | Principle::Climbing
        | Principle::Rule(_)
        | Principle::Bound(_, _) => 0,
    }
}

/// Whether the tests of a principle look at entries.
pub fn looks_at_entries(principle: &Principle) -> bool
    ensures { result ≡ rows.looks_at_entries principle.now }
{
    match principle {
        Principle::Valency => true,
        Principle::Agr => true,
        Principle::Agreement => true,
        Principle::Government => true,
        Principle::Barriers => true,
        Principle::LinkingEnd => true,
        Principle::LinkingDaughter => true,
        Principle::LinkingMother => true,
        Principle::LinkingBelowStart => true,
        Principle::LinkingAboveStart => true,
        Principle::LinkingSisters => true,
        Principle::LinkingNotDaughter => true,
        _ => false,
    }
}

/// Whether they look at attributes of the first dimension.
pub fn looks_at_attrs(principle: &Principle) -> bool
    ensures { result ≡ rows.looks_at_attrs principle.now }
{
    match principle {
        Principle::Order => true,
        Principle::Agr => true,
        Principle::Agreement => true,
        Principle::Government => true,
        _ => false,
    }
}

/// Whether they look at edges of the first dimension.
pub fn looks_at_first(principle: &Principle) -> bool
    ensures { result ≡ rows.looks_at_first principle.now }
{
    match principle {
        Principle::Graph => false,
        Principle::Entries => false,
        Principle::Agr => false,
        Principle::Rule(_) => false,
        Principle::Bound(_, _) => false,
        _ => true,
    }
}

/// Whether they look at edges of the second dimension.
pub fn looks_at_second(principle: &Principle) -> bool
    ensures { result ≡ rows.looks_at_second principle.now }
{
    match principle {
        Principle::Climbing => true,
        Principle::Barriers => true,
        Principle::LinkingEnd => true,
        Principle::LinkingDaughter => true,
        Principle::LinkingMother => true,
        Principle::LinkingBelowStart => true,
        Principle::LinkingAboveStart => true,
        Principle::LinkingSisters => true,
        Principle::LinkingNotDaughter => true,
        _ => false,
    }
}

/// A family of principles: those whose uses one type of propagator serves.
#[derive(Clone, Copy, Debug)]
pub enum PrincipleFamily {
    /// Graph, entries, tree, dag and valency.
    Graph,
    /// Order and projectivity.
    Order,
    /// Agr, agreement and government.
    Agree,
    /// Climbing and barriers.
    Multi,
    /// The linking principles.
    Link,
    /// Rules.
    Rule,
    /// Bounds.
    Bound,
}

/// The family of a principle.
pub fn family_of(principle: &Principle) -> PrincipleFamily
    ensures { rows.IsOf result principle.now }
{
    match principle {
        Principle::Graph => PrincipleFamily::Graph,
        Principle::Entries => PrincipleFamily::Graph,
        Principle::Tree => PrincipleFamily::Graph,
        Principle::Dag => PrincipleFamily::Graph,
        Principle::Valency => PrincipleFamily::Graph,
        Principle::Order => PrincipleFamily::Order,
        Principle::Projectivity => PrincipleFamily::Order,
        Principle::Agr => PrincipleFamily::Agree,
        Principle::Agreement => PrincipleFamily::Agree,
        Principle::Government => PrincipleFamily::Agree,
        Principle::Climbing => PrincipleFamily::Multi,
        Principle::Barriers => PrincipleFamily::Multi,
        Principle::LinkingEnd => PrincipleFamily::Link,
        Principle::LinkingDaughter => PrincipleFamily::Link,
        Principle::LinkingMother => PrincipleFamily::Link,
        Principle::LinkingBelowStart => PrincipleFamily::Link,
        Principle::LinkingAboveStart => PrincipleFamily::Link,
        Principle::LinkingSisters => PrincipleFamily::Link,
        Principle::LinkingNotDaughter => PrincipleFamily::Link,
        Principle::Rule(_) => PrincipleFamily::Rule,
        Principle::Bound(_, _) => PrincipleFamily::Bound,
    }
}
