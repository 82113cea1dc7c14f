// The share of a pass: refusal 1, then the call on a store that is known to be well formed.
ghost use Rattle.std.specs.Prelude.{◌≡◌, true, length, eqb};
ghost use Rattle.areas.specs.Areas.{areas, out};
ghost use Rattle.areas.specs.Entry.{well_formed};
ghost use Rattle.calls.specs.PassShares.{share_words, call_pass_share, pass_share_after};

use areas::{Answer, Check, Refusal};
use pages::PAGE_WORDS;
use pass_shares::SHARE_WORDS;

// Tells what each of a number of commits owes of the steps of a pass. A store that is known to be well formed.
pub fn held_pass_share(
    stored: &[u32],
    copies: &[u32],
    received: &[u32],
    log: &[u32],
    counts: &[u32],
    work: &[u32],
    share: &mut [u32],
    commits: u32,
) -> Answer
    requires { well_formed (eqb (length share.old) share_words) (areas stored.now copies.now received.now log.now counts.now work.now) ≡ true }
    ensures work_value { out result stored.now copies.now received.now log.now counts.now work.now ≡ call_pass_share (areas stored.now copies.now received.now log.now counts.now work.now) share.old commits }
    ensures share_after { share.new ≡ pass_share_after (areas stored.now copies.now received.now log.now counts.now work.now) share.old commits }
{
    if !entry::is_open(work) {
        return Err(Refusal::NotOpen);
    }
    let n = stored.len() / PAGE_WORDS;
    pass_shares::share_check(commits)?;
    Ok(pass_shares::share_apply(share, n, commits))
}

// Tells what each of a number of commits owes of the steps of a pass.
pub fn pass_share(
    stored: &[u32],
    copies: &[u32],
    received: &[u32],
    log: &[u32],
    counts: &[u32],
    work: &[u32],
    share: &mut [u32],
    commits: u32,
) -> Answer
    ensures work_value { out result stored.now copies.now received.now log.now counts.now work.now ≡ call_pass_share (areas stored.now copies.now received.now log.now counts.now work.now) share.old commits }
    ensures share_after { share.new ≡ pass_share_after (areas stored.now copies.now received.now log.now counts.now work.now) share.old commits }
{
    if !entry::well_formed(
        stored,
        copies,
        received,
        log,
        counts,
        work,
        share.len() == SHARE_WORDS,
    ) {
        return Err(Refusal::Malformed);
    }
    held_pass_share(stored, copies, received, log, counts, work, share, commits)
}
