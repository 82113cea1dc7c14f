// Where the working words stand, in a store of n pages: what specs/Layout.antt says, for code.
ghost use Rattle.std.specs.Prelude.{◌≡◌, ◌*◌, ◌^◌, ◌<◌, ◌≤◌};
ghost use Rattle.pages.specs.Geometry.{max_pages, object_count};
ghost use Rattle.records.specs.Records.{txn_count, max_records};
ghost use Rattle.areas.specs.Layout.{readers_at, writers_at, unflushed_at, known_at, pruned_at, created_at, colour_at, mark_count, marked_at, order_at, client_count, client_at, right_at, undoing_at, work_words};

// The received count, then the stable count.
pub const COUNT_WORDS: usize = 2;

pub const RECEIVED: usize = 0;

pub const STABLE: usize = 1;

// How many words stand alone, and how many there are for each page.
pub const SINGLE_WORDS: usize = 6;

pub const WORDS_PER_PAGE: usize = 67;

// The marks of a transaction, and of all.
pub const MARKS: u32 = 4;

pub const MARK_WORDS: usize = 64;

// The clients, of each transaction one, and on each page a right of each.
pub const CLIENTS: u32 = 8;

pub const CLIENT_TOP: u32 = CLIENTS - 1;

pub const CLIENT_WORDS: usize = 16;

pub const RIGHTS_PER_PAGE: usize = 8;

// The rights.
pub const READING: u32 = 1;

pub const WRITING: u32 = 2;

// One word each.
pub const REOPENING_AT: usize = 0;

pub const REOPENING_PAGE_AT: usize = 1;

pub const PHASE_AT: usize = 2;

pub const PASS_PAGE_AT: usize = 3;

pub const STEPS_AT: usize = 4;

pub const ACTIVE_AT: usize = 5;

// The reopening word.
pub const RUNNING: u32 = 1;

pub const FINISHED: u32 = 2;

// The flag of an ended transaction's entries, above the sixteen transactions, and the largest value of a flagged mask.
pub const FLAG: usize = 16;

pub const FLAGGED_TOP: u32 = 131071;

// The pass phase, and the largest step number for each page.
pub const MARKING: u32 = 1;

pub const SWEEPING: u32 = 2;

pub const STEPS_PER_PAGE: u32 = 17;

// Colours.
pub const WHITE: u32 = 0;

pub const GREY: u32 = 1;

pub const BLACK: u32 = 2;

// The masks of page p.
pub fn readers_at(n: usize, p: usize) -> usize
    requires { (n ≤ max_pages) × (p ≤ n) }
    ensures { result ≡ readers_at n p }
{
    SINGLE_WORDS + p
}

pub fn writers_at(n: usize, p: usize) -> usize
    requires { (n ≤ max_pages) × (p ≤ n) }
    ensures { result ≡ writers_at n p }
{
    SINGLE_WORDS + n + p
}

pub fn unflushed_at(n: usize, p: usize) -> usize
    requires { (n ≤ max_pages) × (p ≤ n) }
    ensures { result ≡ unflushed_at n p }
{
    SINGLE_WORDS + 2 * n + p
}

// The words of object o.
pub fn known_at(n: usize, o: usize) -> usize
    requires { (n ≤ max_pages) × (1 ≤ o) × (o ≤ object_count n) }
    ensures { result ≡ known_at n o }
{
    SINGLE_WORDS + 3 * n + (o - 1)
}

pub fn pruned_at(n: usize, o: usize) -> usize
    requires { (n ≤ max_pages) × (1 ≤ o) × (o ≤ object_count n) }
    ensures { result ≡ pruned_at n o }
{
    SINGLE_WORDS + 19 * n + (o - 1)
}

pub fn created_at(n: usize, o: usize) -> usize
    requires { (n ≤ max_pages) × (1 ≤ o) × (o ≤ object_count n) }
    ensures { result ≡ created_at n o }
{
    SINGLE_WORDS + 35 * n + (o - 1)
}

pub fn colour_at(n: usize, o: usize) -> usize
    requires { (n ≤ max_pages) × (1 ≤ o) × (o ≤ object_count n) }
    ensures { result ≡ colour_at n o }
{
    SINGLE_WORDS + 51 * n + (o - 1)
}

// The words of t's mark m; m may be the number of marks, where the next transaction's begin.
pub fn marked_at(n: usize, t: usize, m: usize) -> usize
    requires { (n ≤ max_pages) × (t < txn_count) × (m ≤ mark_count) }
    ensures { result ≡ marked_at n t m }
{
    SINGLE_WORDS + WORDS_PER_PAGE * n + (MARKS as usize * t + m)
}

pub fn order_at(n: usize, t: usize, m: usize) -> usize
    requires { (n ≤ max_pages) × (t < txn_count) × (m ≤ mark_count) }
    ensures { result ≡ order_at n t m }
{
    SINGLE_WORDS + WORDS_PER_PAGE * n + MARK_WORDS + (MARKS as usize * t + m)
}

// As whom t began.
pub fn client_at(n: usize, t: usize) -> usize
    requires { (n ≤ max_pages) × (t < txn_count) }
    ensures { result ≡ client_at n t }
{
    SINGLE_WORDS + WORDS_PER_PAGE * n + 2 * MARK_WORDS + t
}

// The right of client c on page p.
pub fn right_at(n: usize, c: usize, p: usize) -> usize
    requires { (n ≤ max_pages) × (c < client_count) × (p < n) }
    ensures { result ≡ right_at n c p }
{
    SINGLE_WORDS + WORDS_PER_PAGE * n + 2 * MARK_WORDS + CLIENT_WORDS + (RIGHTS_PER_PAGE * p + c)
}

// The word of log record i.
pub fn undoing_at(n: usize, i: usize) -> usize
    requires { (n ≤ max_pages) × (i ≤ max_records) }
    ensures { result ≡ undoing_at n i }
{
    SINGLE_WORDS + (WORDS_PER_PAGE + RIGHTS_PER_PAGE) * n + 2 * MARK_WORDS + CLIENT_WORDS + i
}

// All working words of a store of n pages and l records, also of more than a store has: as many as fit into an address space.
pub fn work_words(n: usize, l: usize) -> usize
    requires { (n < 2 ^ 57) × (l < 2 ^ 62) }
    ensures { result ≡ work_words n l }
{
    SINGLE_WORDS + (WORDS_PER_PAGE + RIGHTS_PER_PAGE) * n + 2 * MARK_WORDS + CLIENT_WORDS + l
}
