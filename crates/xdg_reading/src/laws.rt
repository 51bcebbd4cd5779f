//! What reading and fitting say together.

ghost use Rattle.xdg_reading.specs.Blocks.{ReadsBack};

/// A law, and nothing to run: a text that is read by [`crate::reading::read`], whose words are those of a problem, and that fits
/// by [`crate::fit`] is exactly text 1 or text 2 of the analysis that fits. So an analysis has one spelling a text and number,
/// and every other text is refused.
#[tactic(auto, using(crate::proofs::Back::reads_back))]
pub fn reads_back()
    ensures { ReadsBack }
{}
