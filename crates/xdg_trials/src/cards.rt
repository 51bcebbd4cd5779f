//! Sets of numbers, and what is told of them.

ghost use Rattle.std.specs.Prelude.{◌<◌};

use std::test::Fail;
use xdg_domain::CardSet;

#[test]
fn numbers_in_common(rt: HostRuntime) -> Result<(), Fail> {
    let some = CardSet::one(3).with(9).with(127);
    let others = CardSet::one(9).with(127).with(0);
    let both = some.meet(&others).unwrap_or(CardSet::all());
    assert_eq!(rt; both.least(), 9);
    assert_eq!(rt; both.greatest(), 127);
    assert_eq!(rt; both.contains(3), false);
    assert_eq!(rt; both.contains(200), false);
    assert_eq!(rt; both.equals(&CardSet::one(127).with(9)), true);
    assert_eq!(rt; CardSet::all().least(), 0);
    assert_eq!(rt; CardSet::one(1).meet(&CardSet::one(2)).is_none(), true);
    Ok(())
}
