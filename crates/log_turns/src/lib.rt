// The turns of a walk down the log for the changes of a transaction that are left.
#![tactic(auto)]

ghost use Rattle.std.specs.Prelude.{◌≡◌, not, ◌≤◌, eqb};
ghost use Rattle.records.specs.Records.{max_records};
ghost use Rattle.log_turns.specs.Turns.{turn_at};

use records::Record;

// The turn at record r of a walk for the changes of t that are left: None where r is such a change, or else how many changes further
// down are undone above; pending: the same before r. word: whether going back appended r. A change that going back did not append comes
// first: most of a transaction's records are such.
pub fn turn_at(r: Record, word: u32, t: u32, pending: u32) -> Option<u32>
    requires { pending ≤ max_records }
    ensures { result ≡ turn_at (not (eqb word 0)) r t pending }
{
    let change = (r.kind == records::CREATE) | (r.kind == records::SET);
    if (word == 0) & (change & (r.txn == t)) {
        if pending == 0 {
            return None;
        }
        return Some(pending - 1);
    }
    if (word != 0) & ((change | (r.kind == records::UNCREATE)) & (r.txn == t)) {
        return Some(pending + 1);
    }
    Some(pending)
}
