//! The next arrangement of numbers, in their place.

ghost use Rattle.std.specs.Prelude.{◌≡◌, ◌≤◌, ◌++◌, true, false, Some, MatchOption, drop, length, reverse, take};
ghost use Rattle.xdg_linear.specs.Arrangements.{IsNext, IsLast};
ghost use Rattle.xdg_linear.specs.Falling.{Falls, IsPivot, IsSuccessor};

/// The last place whose number is smaller than the next one. Where there is none, no number is greater than one before it.
fn pivot(numbers: &[u8]) -> Option<usize>
    ensures { MatchOption result (Falls numbers.now) (IsPivot numbers.now) }
{
    let mut at = numbers.len();
    while at > 1 {
        at -= 1;
        if numbers[at - 1] < numbers[at] {
            return Some(at - 1);
        }
    }
    None
}

/// The last place behind a pivot with a greater number. Since the numbers fall there, it is the least greater one.
fn successor(numbers: &[u8], pivot: usize) -> usize
    requires { IsPivot numbers.now pivot }
    ensures { IsSuccessor numbers.now pivot result }
{
    let mut at = numbers.len() - 1;
    while numbers[at] <= numbers[pivot] {
        at -= 1;
    }
    at
}

/// Turns the numbers from a place on.
fn turn(numbers: &mut [u8], from: usize)
    requires { from ≤ length numbers.old }
    ensures { numbers.new ≡ take from numbers.old ++ reverse (drop from numbers.old) }
{
    numbers[from..].reverse();
}

/// Puts the least greater arrangement of the numbers in their place, and answers whether there is one.
pub(crate) fn advance(numbers: &mut [u8]) -> bool
    ensures next { result ≡ true → IsNext numbers.old (Some numbers.old) numbers.new }
    ensures last { result ≡ false → (numbers.new ≡ numbers.old) × IsLast numbers.old (Some numbers.old) }
{
    match pivot(numbers) {
        None => false,
        Some(at) => {
            let other = successor(numbers, at);
            numbers.swap(at, other);
            turn(numbers, at + 1);
            true
        }
    }
}
