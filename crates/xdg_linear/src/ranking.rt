//! The ranks of words.

ghost use Rattle.std.specs.Prelude.{◌≡◌, ◌≤◌, IfOk, length};
ghost use Rattle.xdg_linear.specs.Ranks.{rank_of, ranks_of};

use std::alloc::Global;
use xdg_base::OutOfMemory;
use xdg_problem::SentenceWord;

/// How many words stand before the first with a text.
#[tactic(auto, using(crate::proofs::Ranked::rank_found, crate::proofs::Ranked::rank_behind))]
fn rank(words: &[SentenceWord], text: &str) -> usize
    ensures value { result ≡ rank_of words.now text.now }
    ensures within { result ≤ length words.now }
{
    for (place, word) in words.iter().enumerate() {
        if word.text.as_str() == text {
            return place;
        }
    }
    words.len()
}

/// The rank of each word, in their order.
///
/// # Errors
///
/// Fails where memory runs out.
pub(crate) fn ranks(alloc: Global, words: &[SentenceWord]) -> Result<Vec<u8>, OutOfMemory>
    requires { length words.now ≤ 8 }
    ensures { IfOk result (λ ranks. ranks.items ≡ ranks_of words.now) }
{
    let mut ranks = Vec::new(alloc);
    for word in words {
        ranks.push(rank(words, word.text.as_str()) as u8)?;
    }
    Ok(ranks)
}
