//! Words that are set on a trail, and come back.

use std::test::Fail;
use xdg_trail::Trail;

#[test]
fn a_word_written_twice_comes_back(rt: HostRuntime) -> Result<(), Fail> {
    let alloc = rt.alloc();
    let words = Vec::from_slice(alloc, &[5, 0])?;
    let mut trail = Trail::start(alloc, words, 3)?;
    trail.set(0, 7);
    let mark = trail.mark();
    trail.set(0, 9);
    trail.set(0, 1);
    trail.undo(mark);
    assert_eq!(rt; trail.word(0), 7);
    assert_eq!(rt; trail.word(1), 0);
    Ok(())
}
