ghost use Rattle.std.specs.Prelude.{◌≡◌, true, ◌+◌, ◌*◌, ◌<◌, ◌≤◌, length};
ghost use Rattle.pages.specs.Geometry.{max_pages};
ghost use Rattle.records.specs.Records.{record_words, txn_count, record_at};
ghost use Rattle.records.specs.Soundness.{records_sound};
ghost use Rattle.log_replay.specs.Reading.{read_of, scan_of};

use areas::Refusal;
use records::Record;

// Record i of a log, if it may come where the transactions of m are open.
#[tactic(auto, unfolding(crate::specs::Reading::read_of))]
pub fn read_record(log: &[u32], m: u32, i: usize) -> Option<Record>
    requires { (record_words * i + record_words ≤ length log.now) × ((record_at log.now i).txn < txn_count) }
    ensures { result ≡ read_of m log.now i }
{
    let r = log_reader::record_at(log, i);
    record_check::in_order(m, r).then_some(r)
}

// The transactions still open after the first c records, each sound by itself. Goes on only where the record read is sound where it
// stands.
#[tactic(auto, using(crate::specs::Reading::txn_read, crate::specs::Reading::ordered_read, crate::specs::Reading::open_read, crate::specs::Reading::scan_bad, crate::specs::Reading::scan_end), unfolding(words::specs::Tests::all, records::specs::Order::open_in))]
pub fn open_after(log: &[u32], c: usize) -> Result<u32, Refusal>
    requires { (record_words * c ≤ length log.now) × (records_sound max_pages log.now c ≡ true) }
    ensures { result ≡ scan_of log.now c }
{
    let mut begun: u32 = 0;
    for i in 0..c {
        let Some(r) = read_record(log, begun, i) else {
            return Err(Refusal::Unsound);
        };
        begun = record_check::open_next(begun, r);
    }
    Ok(begun)
}
