//! Values as they are written.

ghost use Rattle.std.specs.Prelude.{◌≡◌, ◌<◌, OnOk};
ghost use Rattle.std.specs.List.{flat_map};
ghost use Rattle.xdg_ast.specs.Trees.{in_braces};
ghost use Rattle.xdg_domain.specs.Cards.{IsCards};
ghost use Rattle.xdg_domain.specs.Shapes.{shape, fields_of, count, IsDomain, IsType, AreTypes};
ghost use Rattle.xdg_domain.specs.Values.{EachSaid, IsFieldOf, IsValue};
ghost use Rattle.xdg_print.specs.Printed.{put};
ghost use Rattle.xdg_print.specs.ValueWords.{truth_text, counted_words, words_of, features_words};
ghost use Rattle.xdg_types.specs.Table.{typed};

use crate::cards::{is_zero, put_cards};
use crate::defaults::is_default;
use crate::members::{put_member, put_members};
use crate::printer::Printer;
use xdg_ast::Kind;
use xdg_base::{OutOfMemory, Text};
use xdg_domain::{CardSet, Ty, Value};

/// The constant of a truth value.
fn truth(holds: bool) -> &'static str
    ensures { result.now ≡ truth_text holds }
{
    if holds {
        return "true";
    }
    "false"
}

/// Adds the keys of a valency with their cardinalities, but for those whose cardinality is the number 0 alone.
fn put_valency(
    printer: &mut Printer,
    key: &Ty,
    entries: &[(u8, CardSet)],
) -> Result<(), OutOfMemory>
    requires key { IsDomain (shape key.now) }
    requires said { EachSaid (λ n ns. (n < count (shape key.now)) × IsCards ns) entries.now }
    ensures { OnOk result (printer.new ≡ put (in_braces (flat_map (counted_words (shape key.now)) entries.now)) printer.old) }
{
    printer.mark(Kind::LeftBrace)?;
    for entry in entries {
        if is_zero(&entry.1) {
            continue;
        }
        put_member(printer, key, u16::from(entry.0))?;
        put_cards(printer, &entry.1)?;
    }
    printer.mark(Kind::RightBrace)
}

/// Adds a value of the type. A row of the table of types is an arm.
#[cycle(value)]
pub(crate) fn put_value(printer: &mut Printer, ty: &Ty, value: &Value) -> Result<(), OutOfMemory>
    requires right { IsType (shape ty.now) }
    requires value { IsValue (shape ty.now) value.now }
    ensures { OnOk result (printer.new ≡ put (words_of (shape ty.now) value.now) printer.old) }
{
    match (ty, value) {
        (Ty::Domain(_), Value::Const(number)) => put_member(printer, ty, u16::from(*number)),
        (Ty::Tuple(_), Value::Tuple(number)) => put_member(printer, ty, *number),
        (Ty::Bool, Value::Bool(holds)) => printer.constant(truth(*holds)),
        (Ty::Int, Value::Int(number)) => printer.number(*number),
        (Ty::Str, Value::Str(text)) => printer.constant(text.as_str()),
        (Ty::Set(of), Value::Set(members)) => put_members(printer, of.get(), members.as_slice()),
        (Ty::ISet(of), Value::Set(members)) => put_members(printer, of.get(), members.as_slice()),
        (Ty::Card, Value::Card(cards)) => put_cards(printer, cards),
        (Ty::Valency(key), Value::Valency(said)) => {
            put_valency(printer, key.get(), said.as_slice())
        }
        (Ty::Map(key, of), Value::Map(said)) => {
            printer.mark(Kind::LeftBrace)?;
            for entry in said.as_slice() {
                if is_default(of.get(), &entry.1) {
                    continue;
                }
                put_member(printer, key.get(), u16::from(entry.0))?;
                printer.mark(Kind::Colon)?;
                put_value(printer, of.get(), &entry.1)?;
            }
            printer.mark(Kind::RightBrace)
        }
        (Ty::Rec(types), Value::Rec(said)) => {
            let types = types.as_slice();
            let said = said.as_slice();
            printer.mark(Kind::LeftBrace)?;
            put_features(printer, types, said)?;
            printer.mark(Kind::RightBrace)
        }
        _ => Ok(()),
    }
}

/// Adds the features of a record with their values.
#[cycle(value)]
pub(crate) fn put_features(
    printer: &mut Printer,
    types: &[(Text, Ty)],
    said: &[(u32, Value)],
) -> Result<(), OutOfMemory>
    requires right { AreTypes (fields_of (typed types.now)) }
    requires said { EachSaid (IsFieldOf (fields_of (typed types.now))) said.now }
    ensures { OnOk result (printer.new ≡ put (features_words (fields_of (typed types.now)) said.now) printer.old) }
{
    for feature in said {
        let field = &types[feature.0 as usize];
        printer.constant(field.0.as_str())?;
        printer.mark(Kind::Colon)?;
        put_value(printer, &field.1, &feature.1)?;
    }
    Ok(())
}
