//! How many lines a group has. To start and to join the threads of a group takes as long as some short searches, and at the end of a group
//! processors wait for its last search; so groups are large. But the texts of a group wait in memory for one another, so those behind long
//! texts are small. And a text waits for all searches of its group, so groups of long lines, whose searches may be long, are not as large as
//! those of short ones.

ghost use Rattle.std.specs.Prelude.{◌≤◌};

use xdg_split::Answer;

/// How many lines are searched side by side at first, and soon behind a group whose texts are long.
pub(crate) const FEWEST: usize = 16;

/// How many lines are searched side by side at most behind a group whose lines are long.
const MANY: usize = 64;

/// How many lines are searched side by side at most.
const MOST: usize = 1024;

/// Up to how many bytes lines are short on average, where the line feed of each counts as one.
const SHORT_LINE: usize = 64;

/// Up to how many bytes the texts of a group are short together.
const SHORT: u64 = 1_048_576;

/// How many lines the group behind one of so many lines and bytes has at most: 16 where the texts of the group before that one are long
/// together, and else twice as many, up to 64, or up to 1,024 where the lines of that one are short. The answers are those of the group before
/// that one: the texts of that one aren't known yet.
pub(crate) fn next_size(size: usize, bytes: usize, answers: &[Answer]) -> usize
    requires { 1 ≤ size }
    ensures { 1 ≤ result }
{
    if are_long(answers) {
        return FEWEST;
    }
    if size < MANY {
        return size * 2;
    }
    if bytes > size.saturating_mul(SHORT_LINE) {
        return MANY;
    }
    if size < MOST {
        return size * 2;
    }
    MOST
}

/// How many bytes a text has before the rest of it.
pub(crate) fn bytes_before(text: &str, rest: &str) -> usize {
    text.len().saturating_sub(rest.len())
}

/// Whether the texts of answers are long together.
pub(crate) fn are_long(answers: &[Answer]) -> bool {
    text_bytes(answers) > SHORT
}

/// How many bytes the texts of answers have together, or 2^64 - 1 where they have more.
fn text_bytes(answers: &[Answer]) -> u64 {
    let mut bytes: u64 = 0;
    for answer in answers {
        bytes = bytes.saturating_add(answer.bytes.as_slice().len() as u64);
    }
    bytes
}
