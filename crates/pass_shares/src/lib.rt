// The share of a pass that each of a number of commits owes: refusal 17, and the share into its buffer.
#![tactic(auto)]

ghost use Rattle.std.specs.Prelude.{◌≡◌, ◌≤◌, length};
ghost use Rattle.pages.specs.Geometry.{max_pages};
ghost use Rattle.areas.specs.Answers.{verdict};
ghost use Rattle.calls.specs.PassShares.{pass_bound, share_words, share_whole, share_of, pass_share_tests};

use areas::{Check, Refusal, layout};

// The words of a share, and the most commits that a pass is spread over.
pub const SHARE_WORDS: usize = 2;

const MAX_COMMITS: u32 = 4096;

// Refusal 17: the number of commits is out of range.
pub fn share_check(commits: u32) -> Check
    ensures { result ≡ verdict (pass_share_tests commits) }
{
    if (1 <= commits) & (commits <= MAX_COMMITS) {
        return Ok(());
    }
    Err(Refusal::CommitsOutOfRange)
}

// The most steps of a pass that covers k pages.
fn pass_bound(k: usize) -> u32
    requires { k ≤ max_pages }
    ensures { result ≡ pass_bound k }
{
    layout::STEPS_PER_PAGE * (k as u32) + 1
}

// What an accepted call does: the whole share and the remainder go into the buffer. Answers the whole share.
pub fn share_apply(share: &mut [u32], k: usize, commits: u32) -> u32
    requires { (k ≤ max_pages) × (1 ≤ commits) × (length share.old ≡ share_words) }
    ensures { (result ≡ share_whole k commits) × (share.new ≡ share_of k commits) }
{
    let bound = pass_bound(k);
    let whole = bound / commits;
    share[0] = whole;
    share[1] = bound % commits;
    whole
}
