//! Trees of grammar texts.

use std::alloc::Global;
use std::test::Fail;
use xdg_ast::{Grammar, same};
use xdg_base::OutOfMemory;
use xdg_lex::tokens;
use xdg_parse::parse;

/// The tree of a text that is one.
fn tree_of(alloc: Global, text: &str) -> Result<Grammar, OutOfMemory> {
    if text.len() > 100_000 {
        return Err(OutOfMemory);
    }
    let Ok(tokens) = tokens(alloc, text.as_bytes()) else {
        return Err(OutOfMemory);
    };
    match parse(alloc, &tokens, text.len() as u32) {
        Ok(grammar) => Ok(grammar),
        Err(_) => Err(OutOfMemory),
    }
}

/// The tree of a text with its places.
fn shown(alloc: Global, text: &str) -> Result<String, OutOfMemory> {
    let tree = tree_of(alloc, text)?;
    format!(in alloc; "{tree:?}")
}

/// Whether the trees of two texts are the same up to places.
fn are_same(alloc: Global, one: &str, other: &str) -> Result<bool, OutOfMemory> {
    let one = tree_of(alloc, one)?;
    let other = tree_of(alloc, other)?;
    Ok(same(&one, &other))
}

/// A grammar, and grammars that differ from it in one respect each, with `~` between them: in the places alone, in a name, a
/// constant, a connective, a form of type, a cardinality and a default.
const TEXTS: &str = "\
usedim d defdim d {deftype t set({a b})} defclass c P: {a!} {dim d {f: P} & c}~\
usedim  \"d\" defdim d {deftype t set ({a b})} defclass c P: {a !} {dim d {f: P} c}~\
usedim e defdim d {deftype t set({a b})} defclass c P: {a!} {dim d {f: P} & c}~\
usedim d defdim d {deftype t set({a})} defclass c P: {a!} {dim d {f: P} & c}~\
usedim d defdim d {deftype t set({a b})} defclass c P: {a!} {dim d {f: P} | c}~\
usedim d defdim d {deftype t iset({a b})} defclass c P: {a!} {dim d {f: P} & c}~\
usedim d defdim d {deftype t set({a b})} defclass c P: {a?} {dim d {f: P} & c}~\
usedim d defdim d {deftype t set({a b})} defclass c P {dim d {f: P} & c}~\
usedim d defdim d {deftype t set({a b})} defclass c P: {a!} {dim d {f: \"P\"} & c}";

#[test]
fn trees_that_differ_in_one_respect(rt: HostRuntime) -> Result<(), Fail> {
    let alloc = rt.alloc();
    assert_eq!(rt; TEXTS.split('~').count(), 9);
    let (first, _) = TEXTS.split_once('~').unwrap_or(("", ""));
    for (number, text) in TEXTS.split('~').enumerate() {
        assert_eq!(rt; are_same(alloc, first, text)?, number < 2);
        assert_eq!(rt; are_same(alloc, text, first)?, number < 2);
    }
    Ok(())
}

#[test]
fn trees_have_their_places(rt: HostRuntime) -> Result<(), Fail> {
    let alloc = rt.alloc();
    assert_eq!(rt;
        shown(alloc, "defclass c a {dim d {f: a g: \"a\"}}")?.as_str(),
        "Grammar { statements: List { items: [Spanned { kind: DefClass { name: Name { text: Text { \
             characters: \"c\" }, span: Span { start: 9, end: 10 } }, params: List { items: [ClassParam { \
             name: Name { text: Text { characters: \"a\" }, span: Span { start: 11, end: 12 } }, preset: \
             None }] }, body: Spanned { kind: Dim(Name { text: Text { characters: \"d\" }, span: Span { \
             start: 18, end: 19 } }, List { items: [Pair { key: Name { text: Text { characters: \"f\" }, \
             span: Span { start: 21, end: 22 } }, value: Spanned { kind: Param(Name { text: Text { \
             characters: \"a\" }, span: Span { start: 24, end: 25 } }), span: Span { start: 24, end: 25 } } \
             }, Pair { key: Name { text: Text { characters: \"g\" }, span: Span { start: 26, end: 27 } }, \
             value: Spanned { kind: Const(Name { text: Text { characters: \"a\" }, span: Span { start: 29, \
             end: 32 } }), span: Span { start: 29, end: 32 } } }] }), span: Span { start: 14, end: 33 } } }, \
             span: Span { start: 0, end: 34 } }] }, span: Span { start: 0, end: 34 } }"
    );
    Ok(())
}
