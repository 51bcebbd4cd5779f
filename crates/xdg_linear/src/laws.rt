//! What a caller's loop over arrangements rests on.

ghost use Rattle.xdg_linear.specs.Laws.{OneList, PassedFirst, PassedAll, AreListed};
ghost use Rattle.xdg_linear.specs.Texts.{TextsArranged};

/// A law, and nothing to run: words have exactly one list of all their arrangements, in rising order and each once. What has
/// been passed at any time is a front of it, and where none is left it is the whole.
#[tactic(auto, using(crate::proofs::Existing::one_list, crate::proofs::Fronts::passed_first, crate::proofs::Fronts::passed_all))]
pub fn arrangements_listed()
    ensures one { OneList }
    ensures first { PassedFirst }
    ensures all { PassedAll }
    ensures listed { AreListed }
{}

/// A law, and nothing to run: as lists of texts the arrangements are those that have each text as often as the words have
/// it, and each is that of one list of ranks.
#[tactic(auto, using(crate::proofs::Worded::texts_arranged))]
pub fn texts_arranged()
    ensures { TextsArranged }
{}
