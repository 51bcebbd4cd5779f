//! A use of a known principle, with the dimensions and the arguments that it is given.

ghost use Rattle.std.specs.Prelude.{◌≡◌, option_map};
ghost use Rattle.std.specs.Option.{option_copied};
ghost use Rattle.xdg_domain.specs.Shapes.{shape};
ghost use Rattle.xdg_terms.specs.Forms.{constant_of};
ghost use Rattle.xdg_terms.specs.Offences.{is_some};
ghost use Rattle.xdg_types.specs.Kinds as kinds;
ghost use Rattle.xdg_principles.specs.Lent.{IsReady, as_setting, as_called};
ghost use Rattle.xdg_problem.specs.Forms.{preset_feature};
ghost use Rattle.xdg_principles.specs.Settings as spec;

use crate::keys::under;
use crate::lookup::{Lookup, members};
use crate::using::UseRef;
use xdg_ast::{Name, Term, TermKind};
use xdg_base::Text;
use xdg_domain::Ty;
use xdg_problem::{Element, Form, Parameter, Sort, Typing, Wanted, Which};
use xdg_terms::constant;
use xdg_types::DimType;

/// A use of a known principle, among the dimensions of a grammar.
#[derive(Clone, Copy)]
pub(crate) struct SettingRef<'a> {
    /// The names of the dimensions.
    pub(crate) lookup: &'a Lookup,
    /// The dimensions.
    pub(crate) dims: &'a [DimType],
    /// The use.
    pub(crate) one: UseRef<'a>,
    /// What the principle has.
    pub(crate) form: Form,
}

/// The name of a feature or an attribute, and its place in the text.
#[derive(Clone, Copy)]
pub(crate) struct CalledRef<'a> {
    /// Its characters.
    pub(crate) text: &'a str,
    /// Where it stands; of a default where the name of the principle stands.
    pub(crate) at: u32,
}

/// Whether the term is in square brackets.
#[tactic(auto, unfolding(crate::specs::Settings::list_of))]
pub(crate) fn is_list(term: &Term) -> bool
    ensures { result ≡ is_some (spec.list_of term.now) }
{
    match &term.kind {
        TermKind::Tuple(_) => true,
        _ => false,
    }
}

/// The constants in square brackets.
#[tactic(auto, unfolding(crate::specs::Settings::list_of))]
fn list(term: &Term) -> &[Name]
    ensures { result.now ≡ spec.names_at (spec.list_of term.now) }
{
    match &term.kind {
        TermKind::Tuple(names) => names.as_slice(),
        _ => &[],
    }
}

/// Whether it is a domain or a tuple type.
pub(crate) fn is_small(ty: &Ty) -> bool
    ensures { result ≡ kinds.is_small (shape ty.now) }
{
    match ty {
        Ty::Domain(_) => true,
        Ty::Tuple(_) => true,
        _ => false,
    }
}

impl<'a> SettingRef<'a> {
    /// The place of a dimension that the use gives.
    pub(crate) fn place(&self, which: Which) -> Option<usize>
        requires { IsReady self.now }
        ensures { result ≡ spec.dim_place (as_setting self.now) which }
    {
        match under(self.one.dims, self.form.dims.key(which)) {
            None => None,
            Some(name) => self.lookup.dims.find(name.text.as_str()),
        }
    }

    /// That dimension.
    fn dim(&self, which: Which) -> Option<&'a DimType>
        requires { IsReady self.now }
        ensures { option_copied result ≡ spec.dim (as_setting self.now) which }
    {
        match self.place(which) {
            None => None,
            Some(place) => self.dims.get(place),
        }
    }

    /// Its labels.
    pub(crate) fn labels(&self, which: Which) -> &'a [Text]
        requires { IsReady self.now }
        ensures { result.now ≡ spec.labels (as_setting self.now) which }
    {
        match self.dim(which) {
            None => &[],
            Some(dim) => dim.labels.as_slice(),
        }
    }

    /// Its features or its attributes.
    fn members(&self, sort: Sort, which: Which) -> &'a [(Text, Ty)]
        requires { IsReady self.now }
        ensures { result.now ≡ spec.members (as_setting self.now) sort which }
    {
        match self.dim(which) {
            None => &[],
            Some(dim) => members(dim, sort),
        }
    }

    /// The place of the feature or the attribute with that name.
    #[tactic(auto, using(crate::proofs::Lookups::none_there, crate::proofs::Lookups::found_there))]
    pub(crate) fn member_place(&self, sort: Sort, which: Which, name: &str) -> Option<usize>
        requires { IsReady self.now }
        ensures { result ≡ spec.member_place (as_setting self.now) sort which name.now }
    {
        let Some(place) = self.place(which) else {
            return None;
        };
        match self.lookup.names(sort).get(place) {
            None => None,
            Some(names) => names.find(name),
        }
    }

    /// Its type.
    pub(crate) fn member_type(&self, sort: Sort, which: Which, name: &str) -> Option<&'a Ty>
        requires { IsReady self.now }
        ensures { option_copied result ≡ spec.member_type (as_setting self.now) sort which name.now }
    {
        let Some(place) = self.member_place(sort, which, name) else {
            return None;
        };
        match self.members(sort, which).get(place) {
            None => None,
            Some(member) => Some(&member.1),
        }
    }

    /// The term that is given for an argument.
    pub(crate) fn term(&self, parameter: Parameter) -> Option<&'a Term>
        ensures { option_copied result ≡ spec.term_in (as_setting self.now) parameter }
    {
        under(self.one.args, parameter.key.text())
    }

    /// The constant, where one is given.
    pub(crate) fn constant(&self, parameter: Parameter) -> Option<&'a Name>
        ensures { option_copied result ≡ spec.constant_in (as_setting self.now) parameter }
    {
        match self.term(parameter) {
            None => None,
            Some(term) => constant(term),
        }
    }

    /// The constants in square brackets, where they are given.
    pub(crate) fn listed(&self, parameter: Parameter) -> &'a [Name]
        ensures { result.now ≡ spec.listed_in (as_setting self.now) parameter }
    {
        match self.term(parameter) {
            None => &[],
            Some(term) => list(term),
        }
    }

    /// What an argument names: the constant that is given, or else its default.
    pub(crate) fn called(&self, parameter: Parameter) -> Option<CalledRef<'a>>
        ensures { option_map as_called result ≡ spec.called_in (as_setting self.now) parameter }
    {
        match self.term(parameter) {
            None => default_called(self.one.name, parameter),
            Some(term) => constant_called(term),
        }
    }

    /// The type that all arguments of the use share, which the first argument of the principle fixes.
    pub(crate) fn shared(&self) -> Option<&'a Ty>
        requires { IsReady self.now }
        ensures { option_map (λ ty. shape ty.now) result ≡ spec.shared (as_setting self.now) }
    {
        match self.form.first {
            None => None,
            Some(parameter) => self.fixed(parameter, parameter.wanted),
        }
    }

    /// The type that an argument fixes for others.
    fn fixed(&self, parameter: Parameter, wanted: Wanted) -> Option<&'a Ty>
        requires { IsReady self.now }
        ensures { option_map (λ ty. shape ty.now) result ≡ spec.fixed_by (as_setting self.now) parameter wanted }
    {
        match wanted {
            Wanted::Member(sort, which, typing) => match typing {
                Typing::One(element) => match element {
                    Element::Shared => self.type_given(sort, which, parameter),
                    Element::Labels(_) => None,
                },
                Typing::Set(_) => None,
                Typing::Valency(_) => None,
                Typing::Map(..) => None,
            },
            Wanted::Labels(_) => None,
            Wanted::Truth => None,
        }
    }

    /// The type of the feature or the attribute that is given.
    fn type_given(&self, sort: Sort, which: Which, parameter: Parameter) -> Option<&'a Ty>
        requires { IsReady self.now }
        ensures { option_map (λ ty. shape ty.now) result
            ≡ spec.type_called (as_setting self.now) sort which (spec.constant_in (as_setting self.now) parameter) }
    {
        match self.constant(parameter) {
            None => None,
            Some(name) => self.small_type(sort, which, name.text.as_str()),
        }
    }

    /// The type of the feature or the attribute with that name, where it is a domain or a tuple type.
    fn small_type(&self, sort: Sort, which: Which, name: &str) -> Option<&'a Ty>
        requires { IsReady self.now }
        ensures { option_map (λ ty. shape ty.now) result ≡ spec.if_small (spec.member_type (as_setting self.now) sort which name.now) }
    {
        let Some(ty) = self.member_type(sort, which, name) else {
            return None;
        };
        if is_small(ty) { Some(ty) } else { None }
    }
}

/// The feature that an argument is by default.
fn default_called<'a>(principle: &Name, parameter: Parameter) -> Option<CalledRef<'a>>
    ensures { option_map as_called result ≡ spec.called_at principle.now.span.start (preset_feature parameter.preset) }
{
    match parameter.preset.feature() {
        None => None,
        Some(text) => Some(CalledRef {
            text,
            at: principle.span.start,
        }),
    }
}

fn constant_called<'a>(term: &'a Term) -> Option<CalledRef<'a>>
    ensures { option_map as_called result ≡ spec.called_by (constant_of term.now) }
{
    match constant(term) {
        None => None,
        Some(name) => Some(CalledRef {
            text: name.text.as_str(),
            at: name.span.start,
        }),
    }
}
