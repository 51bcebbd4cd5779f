//! Labels by number.

ghost use Rattle.std.specs.Prelude.{◌≡◌, ◌≤◌, length, unwrap_or};
ghost use Rattle.xdg_names.specs.Texts.{place_of};

use xdg_ast::Name;
use xdg_base::Text;
use xdg_names::place_of;

/// The number of a label: its place among the labels, from 0, and 0 where it is none of them. The time is linear in their number.
pub fn label_number(labels: &[Text], label: &Name) -> u8
    requires few { length labels.now ≤ 32 }
    ensures { result ≡ unwrap_or (place_of labels.now label.now.text) 0 }
{
    place_of(labels, label.text.as_str()).unwrap_or(0) as u8
}
