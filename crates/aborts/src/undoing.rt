ghost use Rattle.std.specs.Prelude.{◌≡◌, [], ◌+◌, length, get_or};
ghost use Rattle.records.specs.Records.{aborted_of};
ghost use Rattle.areas.specs.Areas.{areas, appended};
ghost use Rattle.calls.specs.Transactions.{rolled_back};
ghost use Rattle.log_ops.specs.Logs.{left_in};
ghost use Rattle.aborts.specs.Rolling.{Undoable};

use areas::layout;

// Appends, newest first, the undoing record of each change of t that is left: down the log until there is none.
fn roll_back(
    received: &mut [u32],
    log: &mut [u32],
    counts: &mut [u32],
    work: &[u32],
    n: usize,
    t: u32,
)
    requires { Undoable received.old log.old counts.old work.now n t }
    ensures { (areas [] [] received.new log.new counts.new [] ≡ rolled_back log.old (left_in log.old counts.old work.now n t) (areas [] [] received.old log.old counts.old [])) × (get_or counts.new 0 0 ≡ get_or counts.old 0 0 + length (left_in log.old counts.old work.now n t)) }
{
    let mut i = counts[layout::RECEIVED] as usize;
    let mut left = log_ops::changes_left(log, counts, work, n, t);
    let mut undone: u32 = 0;
    // A range over the records would end the walk a second time: it ends where nothing is left, above the first record.
    while 0 < left {
        i -= 1;
        let r = log_reader::record_at(log, i);
        let turn = log_turns::turn_at(r, work[layout::undoing_at(n, i)], t, undone);
        match turn {
            None => {
                let _ = log_ops::append(received, log, counts, record_ops::undoing(r));
                left -= 1;
            }
            Some(p) => undone = p,
        }
    }
}

// The log of an abort: the undoing records, then the end of t. Answers the received count.
pub fn abort_log(
    received: &mut [u32],
    log: &mut [u32],
    counts: &mut [u32],
    work: &[u32],
    n: usize,
    t: u32,
) -> u32
    requires { Undoable received.old log.old counts.old work.now n t }
    ensures { (areas [] [] received.new log.new counts.new [] ≡ appended (rolled_back log.old (left_in log.old counts.old work.now n t) (areas [] [] received.old log.old counts.old [])) (aborted_of t)) × (result ≡ get_or counts.new 0 0) }
{
    roll_back(received, log, counts, work, n, t);
    log_ops::append(received, log, counts, records::aborted_of(t))
}
