//! Lines of a text.

ghost use Rattle.std.specs.Prelude.{◌≡◌, ◌<◌, ◌≤◌, ◌∷◌, length};
ghost use Rattle.xdg_corpus.specs.Lines.{lines};

/// The first line of a text that is not empty, without its line feed, and what stands behind that.
#[tactic(auto, using(crate::proofs::Cutting::cut_steps))]
pub(crate) fn first_line(text: &str) -> (&str, &str)
    requires { 0 < length text.now }
    ensures lines { lines text.now ≡ result.0.now ∷ lines result.1.now }
    ensures rest { length result.1.now < length text.now }
    ensures line { length result.0.now ≤ length text.now }
{
    match text.split_once('\n') {
        Some((line, rest)) => (line, rest),
        None => (text, ""),
    }
}
