// What a chain tests, and what it shows: the chain of references that keeps an object, as the search leaves it, in a lent buffer.
#![tactic(auto)]

mod trace;

ghost use Rattle.std.specs.Prelude.{◌≡◌, true, [], ◌*◌, ◌≤◌, length};
ghost use Rattle.pages.specs.Geometry.{page_words, max_pages};
ghost use Rattle.pages.specs.Soundness.{area_sound};
ghost use Rattle.reach.specs.Search.{chain_in};
ghost use Rattle.areas.specs.Answers.{verdict};
ghost use Rattle.areas.specs.Areas.{areas};
ghost use Rattle.calls.specs.Chains.{chain_words, chain_tests, shown};
ghost use Rattle.chain_laws.specs.Links.{Object};

use areas::{Check, Refusal};
use chain_search::Search;
use page_ops::change;
use pages::SLOTS;

// Refusals 3 and 15 of a chain: there is no such object, or its slot is free in the copies.
pub fn chain_check(copies: &[u32], n: usize, o: u32) -> Check
    requires { (page_words * n ≤ length copies.now) × (n ≤ max_pages) }
    ensures { result ≡ verdict (chain_tests (areas [] copies.now [] [] [] []) n o) }
{
    if !((1 <= o) & (o as usize <= SLOTS * n)) {
        return Err(Refusal::OutOfRange);
    }
    if change::occupied(copies, o) {
        return Ok(());
    }
    Err(Refusal::Free)
}

// What an accepted chain does: the chain goes into the buffer. Answers its number of objects.
pub fn chain_apply(copies: &[u32], buffer: &mut [u32], n: usize, o: u32) -> u32
    requires { (length copies.now ≡ page_words * n) × (1 ≤ n) × (n ≤ max_pages) × (area_sound copies.now n ≡ true) × Object n o × (length buffer.old ≡ chain_words) }
    ensures { (result ≡ length (chain_in copies.now n o)) × (buffer.new ≡ shown (chain_in copies.now n o)) }
{
    let mut found = Search::new();
    if !found.search(copies, n, o) {
        trace::clear(buffer, 0);
        return 0;
    }
    let d = trace::trace(&found.from, &mut found.queue, o);
    trace::show(&found.queue, buffer, d);
    trace::clear(buffer, d);
    d as u32
}
