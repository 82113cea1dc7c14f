ghost use Rattle.std.specs.Prelude.{◌≡◌, ◌<◌, set};
ghost use Rattle.records.specs.Records.{txn_count};
ghost use Rattle.areas.specs.Layout.{HasUndoing, client_at};

use areas::layout;

// Notes as whom t runs.
pub fn note_client(work: &mut [u32], n: usize, t: u32, client: u32)
    requires { HasUndoing work.old n 0 × (t < txn_count) }
    ensures { work.new ≡ set work.old (client_at n t) client }
{
    work[layout::client_at(n, t as usize)] = client;
}
