//! A compiled sentence: its words, what has to be decided, which principles judge the decisions, and the
//! definitions of an analysis, of a solution, of their order and of the prefixes that a search goes through.
//!
//! What makes a problem knows no search, and what searches or judges one knows no grammar text.
#![tactic(auto)]

mod analysis;
mod arguments;
mod binding;
mod branching;
mod comparing;
mod conditions;
mod copying;
mod costing;
mod costs;
mod decisions;
mod fitting;
mod forms;
mod formula;
mod laws;
mod numbers;
mod parts;
mod places;
mod principles;
mod problem;
mod shared;
mod sizes;
mod uses;
mod with_bound;
mod with_rules;

pub use analysis::{Analysis, Edge, is_before};
pub use arguments::{attr_of, dim_of, truth_of};
pub use binding::{Binding, bind, node_of, none_bound, rebind};
pub use conditions::Condition;
pub use copying::copy_words;
pub use costing::cost_of;
pub use costs::Costs;
pub use forms::{
    Dims, Element, Form, Key, Parameter, Preset, Sort, Typing, Wanted, Which, form_of,
};
pub use formula::Formula;
pub use laws::{branch_laws, further_laws, live_laws, solution_laws, verdict_laws};
pub use numbers::Nums;
pub use parts::{AttrPlan, DimPlan, Feat, Group, Linking, Parts, Principle, SentenceWord, Shown};
pub use principles::{
    PrincipleFamily, family_of, feature_dim, linking_of, looks_at_attrs, looks_at_entries,
    looks_at_first, looks_at_second, principle_name, principle_named,
};
pub use problem::Problem;
pub use shared::SharedList;
