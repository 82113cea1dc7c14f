ghost use Rattle.std.specs.Prelude.{◌≡◌, ◌+◌, ◌≤◌, length, replicate};
ghost use Rattle.words.specs.Spans.{fill};

// The k words from word b become 0.
pub fn clear_words(a: &mut [u32], b: usize, k: usize)
    requires { b + k ≤ length a.old }
    ensures { a.new ≡ fill (λ i. 0) a.old b k }
{
    a[b..b + k].fill(0);
}

// Every word becomes 0.
pub fn clear(a: &mut [u32])
    ensures { a.new ≡ replicate (length a.old) 0 }
{
    a.fill(0);
}

// One area becomes another: a loop, as in `copy_page`.
pub fn copy_area(from: &[u32], to: &mut [u32])
    requires { length to.old ≡ length from.now }
    ensures { to.new ≡ from.now }
{
    for (i, word) in to.iter_mut().enumerate() {
        *word = from[i];
    }
}
