//! Rules.

ghost use Rattle.std.specs.Prelude.{◌≡◌};
ghost use Rattle.xdg_parse.specs.Steps.{Reads};
ghost use Rattle.xdg_formula.specs.Rules as grammar;

use crate::names::constant;
use crate::terms::formula;
use crate::tree::{Rule, RuleTerm};
use crate::words::RULE;
use std::alloc::Global;
use xdg_ast::{Kind, Name};
use xdg_base::List;
use xdg_parse::{Cursor, Why};

/// The name of a rule and its formula.
#[tactic(auto, unfolding(crate::specs::Rules::named))]
fn named(alloc: Global, cursor: &mut Cursor<'_, '_>, within: u32) -> Result<(Name, RuleTerm), Why>
    ensures { Reads ((grammar.named within).read cursor.old) result cursor.new }
{
    let name = constant(alloc, cursor)?;
    cursor.expect(Kind::Colon)?;
    let body = formula(alloc, cursor, within)?;
    Ok((name, body))
}

#[tactic(auto, unfolding(crate::specs::Rules::rule))]
fn rule(alloc: Global, cursor: &mut Cursor<'_, '_>, within: u32) -> Result<Rule, Why>
    ensures { Reads ((grammar.rule within).read cursor.old) result cursor.new }
{
    let word = cursor.expect(RULE)?;
    let (name, body) = named(alloc, cursor, within)?;
    Ok(Rule {
        name,
        body,
        at: word.span.start,
    })
}

/// Rules, as many as come.
#[tactic(auto, unfolding(crate::specs::Rules::rules), using(xdg_parse::proofs::Loop::reading, crate::proofs::Listed::rule_item))]
pub(crate) fn rules(
    alloc: Global,
    cursor: &mut Cursor<'_, '_>,
    within: u32,
) -> Result<List<Rule>, Why>
    ensures { Reads ((grammar.rules within).read cursor.old) result cursor.new }
{
    let mut rules = List::new(alloc);
    'rules: while cursor.sees(RULE) {
        rules.push(rule(alloc, cursor, within)?)?;
    }
    Ok(rules)
}
