// An answer's size and its last two bytes.
ghost use Rattle.std.specs.Prelude.{◌≡◌};
ghost use Rattle.answer_common.specs.Answer.{size_bad};
ghost use Rattle.select_search.specs.Search.{has_status};

use slices::byte;

const FEWEST: usize = 2;

const MOST: usize = 258;

#[tactic(auto, unfolding(answer_common::specs::Answer::size_bad))]
pub fn is_size_bad(answer: &[u8]) -> bool
    ensures { result ≡ size_bad answer.now }
{
    answer.len() < FEWEST || MOST < answer.len()
}

#[tactic(auto, unfolding(crate::specs::Search::has_status))]
pub fn has_status(answer: &[u8], status: usize) -> bool
    ensures { result ≡ has_status status answer.now }
{
    let n = answer.len();
    256 * byte(answer, n.saturating_sub(2)) + byte(answer, n.saturating_sub(1)) == status
}
