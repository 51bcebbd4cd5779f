//! Constants, tuples and sets as they are written.

ghost use Rattle.std.specs.Prelude.{◌≡◌, ◌<◌, map, OnOk};
ghost use Rattle.xdg_domain.specs.Shapes.{shape, shapes_of, constants_of, count, IsSmall};
ghost use Rattle.xdg_domain.specs.Sized.{sizes_of};
ghost use Rattle.xdg_domain.specs.Tuples.{InRange};
ghost use Rattle.xdg_domain.specs.Values.{AllBelow};
ghost use Rattle.xdg_print.specs.Printed.{put};
ghost use Rattle.xdg_print.specs.ValueWords.{constants_at, member_words, members_words};

use crate::printer::Printer;
use xdg_ast::Kind;
use xdg_base::{OutOfMemory, Text};
use xdg_domain::{Tuple, Ty, tuple_of};

/// Adds the constant of each field of a tuple.
fn put_fields(printer: &mut Printer, types: &[Ty], tuple: &Tuple<'_>) -> Result<(), OutOfMemory>
    requires { InRange (sizes_of types.now) tuple.now }
    ensures { OnOk result (printer.new ≡ put (constants_at (constants_of (shapes_of (map shape types.now))) tuple.now) printer.old) }
{
    for (field, ty) in types.iter().enumerate() {
        let names = ty.constants();
        printer.constant(names[tuple.at(field) as usize].as_str())?;
    }
    Ok(())
}

/// Adds the constant or the tuple with that number.
pub(crate) fn put_member(printer: &mut Printer, ty: &Ty, number: u16) -> Result<(), OutOfMemory>
    requires small { IsSmall (shape ty.now) }
    requires below { number < count (shape ty.now) }
    ensures { OnOk result (printer.new ≡ put (member_words (shape ty.now) number) printer.old) }
{
    match ty {
        Ty::Domain(names) => printer.constant(names.as_slice()[number as usize].as_str()),
        Ty::Tuple(types) => {
            printer.mark(Kind::LeftBracket)?;
            put_fields(printer, types.as_slice(), &tuple_of(ty, number))?;
            printer.mark(Kind::RightBracket)
        }
        _ => Ok(()),
    }
}

/// Adds a set with all its members.
pub(crate) fn put_members(
    printer: &mut Printer,
    ty: &Ty,
    numbers: &[u16],
) -> Result<(), OutOfMemory>
    requires small { IsSmall (shape ty.now) }
    requires below { AllBelow (count (shape ty.now)) numbers.now }
    ensures { OnOk result (printer.new ≡ put (members_words (shape ty.now) numbers.now) printer.old) }
{
    printer.mark(Kind::LeftBrace)?;
    for number in numbers {
        put_member(printer, ty, *number)?;
    }
    printer.mark(Kind::RightBrace)
}
