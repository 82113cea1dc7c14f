ghost use Rattle.std.specs.Prelude.{◌≡◌, true, ◌+◌, ◌*◌, ◌<◌, ◌≤◌, length};
ghost use Rattle.pages.specs.Geometry.{slot_words, page_words, page_at, page_of, object_count};
ghost use Rattle.pages.specs.Objects.{word_of};
ghost use Rattle.pages.specs.Soundness.{area_sound};
ghost use Rattle.records.specs.Records.{txn_count};
ghost use Rattle.areas.specs.Layout.{HasTables};
ghost use Rattle.calls.specs.Objects.{learned, object_words};
ghost use Rattle.objects.specs.Reading.{learned_next};

use areas::layout;
use page_ops::change;
use pages::{SLOT_WORDS, SLOTS};

// The words of object o, into a buffer of as many.
fn show(received: &[u32], buffer: &mut [u32], o: u32)
    requires { (length buffer.old ≡ slot_words) × (1 ≤ o) × (page_at (page_of o) + page_words ≤ length received.now) }
    ensures { buffer.new ≡ object_words received.now o }
{
    let i = (o - 1) as usize;
    let b = pages::slot_at(i / SLOTS, i % SLOTS, 0);
    buffer.copy_from_slice(&received[b..b + SLOT_WORDS]);
}

// Word f of object o, if it is a reference other than 0, becomes known to t. The received pages are sound: the reference is in range.
fn learn_word(received: &[u32], work: &mut [u32], n: usize, t: u32, o: u32, f: u32)
    requires n_in_bounds { (page_words * n ≤ length received.now) × HasTables work.old n × (area_sound received.now n ≡ true) }
    requires t_lt_txn_count { (t < txn_count) × (1 ≤ o) × (o ≤ object_count n) × (f < slot_words) }
    ensures { work.new ≡ learned_next received.now work.old n t o f }
{
    let x = change::word_of(received, o, f);
    if change::is_ref(received, o, f) & (x != 0) {
        store_ops::gain(work, layout::known_at(n, x as usize), t);
    }
}

// The references of object o other than 0 become known to t.
fn learn(received: &[u32], work: &mut [u32], n: usize, t: u32, o: u32)
    requires n_in_bounds { (page_words * n ≤ length received.now) × HasTables work.old n × (area_sound received.now n ≡ true) }
    requires t_lt_txn_count { (t < txn_count) × (1 ≤ o) × (o ≤ object_count n) }
    ensures { work.new ≡ learned received.now work.old n t o slot_words }
{
    for f in 0..SLOT_WORDS {
        learn_word(received, work, n, t, o, f as u32);
    }
}

// What an accepted read does. Answers word 0.
pub fn read_apply(
    received: &[u32],
    work: &mut [u32],
    buffer: &mut [u32],
    n: usize,
    t: u32,
    o: u32,
) -> u32
    requires { (page_words * n ≤ length received.now) × HasTables work.old n × (area_sound received.now n ≡ true) × (length buffer.old ≡ slot_words) × (t < txn_count) × (1 ≤ o) × (o ≤ object_count n) }
    ensures { (result ≡ word_of received.now o 0) × (work.new ≡ learned received.now work.old n t o slot_words) × (buffer.new ≡ object_words received.now o) }
{
    show(received, buffer, o);
    learn(received, work, n, t, o);
    change::word_of(received, o, 0)
}
