// The log, read record by record through a reader that holds the log and a position in it.
#![tactic(auto)]

ghost use Rattle.std.specs.Prelude.{◌≡◌, ◌+◌, ◌*◌, ◌≤◌, length};
ghost use Rattle.records.specs.Records.{record_words, record_at};

use records::Record;

// A log, and the number of the record to read.
#[derive(Clone, Copy)]
pub struct Reader<'a> {
    pub log: &'a [u32],
    pub at: usize,
}

// The words of record i.
fn words_at(log: &[u32], i: usize) -> Record
    requires { record_words * i + record_words ≤ length log.now }
    ensures { result ≡ record_at log.now i }
{
    Record {
        kind: log[records::RECORD_WORDS * i],
        txn: log[records::RECORD_WORDS * i + 1],
        object: log[records::RECORD_WORDS * i + 2],
        field: log[records::RECORD_WORDS * i + 3],
        old: log[records::RECORD_WORDS * i + 4],
        new: log[records::RECORD_WORDS * i + 5],
    }
}

// A reader of a log at record i.
fn start<'a>(log: &'a [u32], at: usize) -> Reader<'a>
    ensures { (result.log ≡ log.entry) × (result.at ≡ at) }
{
    Reader { log, at }
}

// The record that a reader stands at.
fn read<'a>(r: Reader<'a>) -> Record
    requires { record_words * r.at + record_words ≤ length r.log.now }
    ensures { result ≡ record_at r.entry.log.now r.entry.at }
{
    words_at(r.log, r.at)
}

// Record i of a log, through a reader.
pub fn record_at(log: &[u32], i: usize) -> Record
    requires { record_words * i + record_words ≤ length log.now }
    ensures { result ≡ record_at log.now i }
{
    read(start(log, i))
}
