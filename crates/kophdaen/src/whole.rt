// The test at a server's start as a C function, over one page area.
ghost use Rattle.kophdaen.specs.Wholeness.{WholeCode};

use codes::code;

// Whether whatever the root reaches in these pages is occupied: value 1 where it is, 0 where not.
#[unsafe(no_mangle)]
pub extern "C" fn kophdaen_whole(pages: &[u32]) -> u64
    ensures { WholeCode pages.now result }
{
    let a = reach_walk::whole(pages);
    code(a)
}
