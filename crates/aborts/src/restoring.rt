ghost use Rattle.std.specs.Prelude.{◌≡◌, ◌*◌, ◌<◌, ◌≤◌, length};
ghost use Rattle.words.specs.Tests.{if};
ghost use Rattle.pages.specs.Geometry.{page_words};
ghost use Rattle.pages.specs.Objects.{copied_page};
ghost use Rattle.areas.specs.Layout.{HasTables};
ghost use Rattle.areas.specs.Tables.{can_write};
ghost use Rattle.calls.specs.Transactions.{restored};

// The copy of page p becomes the received page, where t has its write lock.
fn restore_page(work: &[u32], received: &[u32], copies: &mut [u32], n: usize, t: u32, p: usize)
    requires { HasTables work.now n × (page_words * n ≤ length received.now) × (page_words * n ≤ length copies.old) × (p < n) × (t < 32) }
    ensures { copies.new ≡ if (can_write work.now n t p) (copied_page received.now copies.old p) copies.old }
{
    if store_ops::can_write(work, n, t, p) {
        page_ops::copy::copy_page(received, copies, p);
    }
}

// The same of every page.
pub fn restore(work: &[u32], received: &[u32], copies: &mut [u32], n: usize, t: u32)
    requires { HasTables work.now n × (page_words * n ≤ length received.now) × (page_words * n ≤ length copies.old) × (t < 32) }
    ensures { copies.new ≡ restored work.now n t received.now copies.old n }
{
    for p in 0..n {
        restore_page(work, received, copies, n, t, p);
    }
}
