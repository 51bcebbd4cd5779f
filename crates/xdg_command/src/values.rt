//! The values of options, which are read from their texts.

ghost use Rattle.std.specs.Prelude.{◌≡◌, ◌≤◌, option_map};
ghost use Rattle.std.specs.List.{list_all};
ghost use Rattle.std.specs.Char.{is_ascii_digit};
ghost use Rattle.xdg_command.specs.Answers.{IsExactly};
ghost use Rattle.xdg_command.specs.Commands.{HasBudget, HasFirst, HasText, IsDrillNumber, IsNumber};

use xdg_text::Form;

/// The budget of a search to which none is given.
pub const BUDGET: u64 = 10_000_000;

/// The greatest budget.
const GREATEST_BUDGET: u64 = 1_000_000_000;

/// The greatest number of analyses after which to stop.
const GREATEST_FIRST: u64 = 1_000_000;

/// The greatest number of a drill.
const GREATEST_DRILL: u64 = 999_999;

/// Whether each of the bytes is a digit.
fn are_digits(bytes: &[u8]) -> bool
    ensures { result ≡ list_all is_ascii_digit bytes.now }
{
    bytes.iter().all(|byte| byte.is_ascii_digit())
}

/// The number that one to ten ASCII digits write, where it lies in the range.
fn number(text: &str, least: u64, most: u64) -> Option<u64>
    ensures { IsExactly (IsNumber least most text.now) result }
{
    let digits = text.as_bytes();
    if digits.len() > 10 || !are_digits(digits) {
        return None;
    }
    match text.parse::<u64>() {
        Ok(number) if least <= number && number <= most => Some(number),
        _ => None,
    }
}

/// The budget, from the value of `--budget`.
pub(crate) fn budget(given: Option<&str>) -> Option<u64>
    ensures { IsExactly (HasBudget (option_map (λ text. text.now) given.entry)) result }
{
    match given {
        Some(text) => number(text, 1, GREATEST_BUDGET),
        None => Some(BUDGET),
    }
}

/// After how many analyses to stop, from the value of `--first`.
pub(crate) fn first(given: Option<&str>) -> Option<Option<u64>>
    ensures { IsExactly (HasFirst (option_map (λ text. text.now) given.entry)) result }
{
    match given {
        Some(text) => match number(text, 1, GREATEST_FIRST) {
            Some(count) => Some(Some(count)),
            None => None,
        },
        None => Some(None),
    }
}

/// The number of a drill, from its operand.
pub(crate) fn drill_number(text: &str) -> Option<u64>
    ensures { IsExactly (IsDrillNumber text.now) result }
{
    number(text, 0, GREATEST_DRILL)
}

/// The form of analyses, from the value of `--text`.
pub(crate) fn text_form(given: Option<&str>) -> Option<Form>
    ensures { IsExactly (HasText (option_map (λ text. text.now) given.entry)) result }
{
    match given {
        Some("1") => Some(Form::One),
        Some("2") => Some(Form::Two),
        Some(_) => None,
        None => Some(Form::One),
    }
}
