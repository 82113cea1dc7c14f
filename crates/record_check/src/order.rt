ghost use Rattle.std.specs.Prelude.{◌≡◌, ◌<◌};
ghost use Rattle.records.specs.Records.{txn_count};
ghost use Rattle.records.specs.Order.{open_next, in_order};

use bit_ops::bits;
use records::Record;

// The transactions begun and not ended, after one more record.
pub fn open_next(m: u32, r: Record) -> u32
    requires { r.txn < txn_count }
    ensures { result ≡ open_next m r }
{
    if r.kind == records::BEGIN {
        return bits::with_bit(m, r.txn as usize);
    }
    if (r.kind == records::COMMIT) | (r.kind == records::ABORTED) {
        return bits::without_bit(m, r.txn as usize);
    }
    m
}

// Whether a record may come where the transactions of m are open: a sweep always, a begin where its transaction is not open, and
// any other where it is.
pub fn in_order(m: u32, r: Record) -> bool
    requires { r.txn < txn_count }
    ensures { result ≡ in_order m r }
{
    let begun = words::has_bit(m, r.txn as usize);
    if r.kind == records::SWEEP {
        return true;
    }
    if r.kind == records::BEGIN {
        !begun
    } else {
        begun
    }
}
