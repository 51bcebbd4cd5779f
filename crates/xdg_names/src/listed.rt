//! Texts in a list.

ghost use Rattle.std.specs.Prelude.{◌≡◌};
ghost use Rattle.xdg_names.specs.Texts.{has_text, place_of};

use xdg_base::Text;

/// Whether a text stands in a list. The time is linear in the list: where it is asked often, an [`Index`](crate::Index) serves.
pub fn has_text(texts: &[Text], text: &str) -> bool
    ensures { result ≡ has_text texts.now text.now }
{
    for other in texts {
        if other.as_str() == text {
            return true;
        }
    }
    false
}

/// The place of a text in a list, from 0: the first, where it stands there more than once. The time is linear in the list, as that of
/// [`has_text`].
pub fn place_of(texts: &[Text], text: &str) -> Option<usize>
    ensures { result ≡ place_of texts.now text.now }
{
    for (place, other) in texts.iter().enumerate() {
        if other.as_str() == text {
            return Some(place);
        }
    }
    None
}
