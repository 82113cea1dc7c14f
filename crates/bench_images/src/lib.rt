// The page that a flush of the bench program sends.
#![tactic(auto)]

ghost use Rattle.std.specs.Prelude.{◌≡◌, []};
ghost use Rattle.areas.specs.Areas.{areas};
ghost use Rattle.bench_run.specs.Bench.{page_sent};

use pages::PAGE_WORDS;

// The received page p, or zeros where there is none.
pub fn page_sent(received: &[u32], p: u32) -> [u32; PAGE_WORDS]
    ensures { result ≡ page_sent (areas [] [] received.now [] [] []) p }
{
    let mut image = [0u32; PAGE_WORDS];
    let b = PAGE_WORDS * (p as usize);
    for (i, word) in image.iter_mut().enumerate() {
        *word = received.get(b + i).copied().unwrap_or(0);
    }
    image
}
