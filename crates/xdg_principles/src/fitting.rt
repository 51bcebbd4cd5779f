//! Whether a type is the one that an argument wants.

ghost use Rattle.std.specs.Prelude.{◌≡◌, List, ℕ, map};
ghost use Rattle.xdg_domain.specs.Shapes.{shape, shapes_of, constants_of};
ghost use Rattle.xdg_types.specs.Kinds as kinds;
ghost use Rattle.xdg_principles.specs.Lent.{IsReady, as_setting};
ghost use Rattle.xdg_principles.specs.Settings.{shared};
ghost use Rattle.xdg_principles.specs.Wanted as spec;

use crate::settings::{SettingRef, is_small};
use xdg_base::Text;
use xdg_domain::Ty;
use xdg_problem::{Element, Typing};

/// Whether two lists have the same texts in the same order.
fn same_texts(a: &[Text], b: &[Text]) -> bool
    ensures { result ≡ spec.same_texts a.now b.now }
{
    let mut others = b;
    for text in a {
        match others.split_first() {
            None => return false,
            Some((other, rest)) => {
                if text.as_str() != other.as_str() {
                    return false;
                }
                others = rest;
            }
        }
    }
    others.is_empty()
}

/// Whether two lists have the same domains in the same order.
fn same_domains(a: &[Ty], b: &[Ty]) -> bool
    ensures { result ≡ spec.same_domains (constants_of (shapes_of (map shape a.now))) (constants_of (shapes_of (map shape b.now))) }
{
    let mut others = b;
    for ty in a {
        match others.split_first() {
            None => return false,
            Some((other, rest)) => {
                if !same_texts(ty.constants(), other.constants()) {
                    return false;
                }
                others = rest;
            }
        }
    }
    others.is_empty()
}

/// Whether two types are the same domain, or tuple types of the same domains.
fn same_type(a: &Ty, b: &Ty) -> bool
    ensures { result ≡ spec.same_type (shape a.now) (shape b.now) }
{
    match a {
        Ty::Domain(texts) => match b {
            Ty::Domain(others) => same_texts(texts.as_slice(), others.as_slice()),
            _ => false,
        },
        Ty::Tuple(types) => match b {
            Ty::Tuple(others) => same_domains(types.as_slice(), others.as_slice()),
            _ => false,
        },
        _ => false,
    }
}

/// Whether the type is the domain of these texts.
fn is_domain_of(texts: &[Text], ty: &Ty) -> bool
    ensures { result ≡ spec.is_domain_of texts.now (shape ty.now) }
{
    match ty {
        Ty::Domain(constants) => same_texts(constants.as_slice(), texts),
        _ => false,
    }
}

/// Whether the type is the one that the arguments of the use share, or, where that is unknown, may be it.
fn is_shared<'a>(setting: &SettingRef<'a>, ty: &Ty) -> bool
    requires { IsReady setting.now }
    ensures { result ≡ spec.is_shared (shared (as_setting setting.now)) (shape ty.now) }
{
    match setting.shared() {
        None => is_small(ty),
        Some(fixed) => same_type(fixed, ty),
    }
}

fn is_element<'a>(setting: &SettingRef<'a>, element: Element, ty: &Ty) -> bool
    requires { IsReady setting.now }
    ensures { result ≡ spec.is_element (as_setting setting.now) element (shape ty.now) }
{
    match element {
        Element::Labels(which) => is_domain_of(setting.labels(which), ty),
        Element::Shared => is_shared(setting, ty),
    }
}

fn is_set_of<'a>(setting: &SettingRef<'a>, element: Element, ty: &Ty) -> bool
    requires { IsReady setting.now }
    ensures { result ≡ spec.is_set_of (spec.is_element (as_setting setting.now) element) (shape ty.now) }
{
    match ty {
        Ty::Set(part) => is_element(setting, element, part.get()),
        Ty::ISet(part) => is_element(setting, element, part.get()),
        _ => false,
    }
}

fn is_map_to<'a>(setting: &SettingRef<'a>, element: Element, keys: &[Text], ty: &Ty) -> bool
    requires { IsReady setting.now }
    ensures { result ≡ spec.is_map_to (spec.is_element (as_setting setting.now) element) keys.now (shape ty.now) }
{
    match ty {
        Ty::Map(key, value) => {
            is_domain_of(keys, key.get()) && is_set_of(setting, element, value.get())
        }
        _ => false,
    }
}

fn is_valency_of(keys: &[Text], ty: &Ty) -> bool
    ensures { result ≡ spec.is_valency_of keys.now (shape ty.now) }
{
    match ty {
        Ty::Valency(key) => is_domain_of(keys, key.get()),
        _ => false,
    }
}

/// Whether the type is the wanted one.
pub(crate) fn is_wanted<'a>(setting: &SettingRef<'a>, typing: Typing, ty: &Ty) -> bool
    requires { IsReady setting.now }
    ensures { result ≡ spec.is_wanted (as_setting setting.now) typing (shape ty.now) }
{
    match typing {
        Typing::One(element) => is_element(setting, element, ty),
        Typing::Set(element) => is_set_of(setting, element, ty),
        Typing::Valency(which) => is_valency_of(setting.labels(which), ty),
        Typing::Map(which, element) => is_map_to(setting, element, setting.labels(which), ty),
    }
}
