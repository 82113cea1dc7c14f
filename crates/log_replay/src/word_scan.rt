ghost use Rattle.std.specs.Prelude.{◌≡◌, ◌*◌, ◌≤◌, length};
ghost use Rattle.pages.specs.Geometry.{max_pages};
ghost use Rattle.records.specs.Records.{record_words};
ghost use Rattle.records.specs.Soundness.{records_sound};

// Whether each of the first c records is sound by itself: the first unsound word ends the scan, which has a label for it, the form that
// document 01 names.
pub fn words_sound(log: &[u32], n: usize, c: usize) -> bool
    requires { (record_words * c ≤ length log.now) × (n ≤ max_pages) }
    ensures { result ≡ records_sound n log.now c }
{
    let mut ok = true;
    'records: for i in 0..c {
        let r = log_reader::record_at(log, i);
        for w in 0..records::RECORD_WORDS {
            if !record_check::word_sound(r, n, w) {
                ok = false;
                break 'records;
            }
        }
    }
    ok
}
