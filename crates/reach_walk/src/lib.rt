// Whether whatever the root reaches in a page area is occupied. The walk goes breadth first and looks at each reference of a reached
// object once.
#![tactic(auto)]

ghost use Rattle.std.specs.Prelude.{◌≡◌, true, ◌<◌, length};
ghost use Rattle.pages.specs.Geometry.{slot_words};
ghost use Rattle.areas.specs.Ranges.{pages_in};
ghost use Rattle.reach.specs.Reaching.{Reached};
ghost use Rattle.reach_walk.specs.Wholeness.{area_fits, WholeAnswer};
ghost use Rattle.reach_walk.specs.Walk.{Marked, Consistent, PagesOf, Entry, Followed, FollowedTo, Outcome};

use areas::{Answer, Refusal};
use page_ops::change;
use pages::{MAX_OBJECTS, MAX_PAGES, PAGE_WORDS, ROOT, SLOT_WORDS, SLOTS};

// The objects found: a mark for each, at its number less 1, and a queue of them, which ends at tail. Lent and never moved: an array has
// 16 KiB. With tail first and of 32 bits, no write into an array can reach it, and a loop keeps it in a register.
#[derive(Drop)]
struct Walk {
    tail: u32,
    marks: [u32; MAX_OBJECTS],
    queue: [u32; MAX_OBJECTS],
}

// A step of the walk over an area of n pages: None where a reached object is not there.
impl Walk {
    // The walk comes to object x, which is reached: the first time it is marked and enters the queue, if it is there.
    fn visit(&mut self, pages: &[u32], n: usize, x: u32) -> Option<()>
        requires { PagesOf pages.now n × Consistent (Entry pages.now) n self.old × Reached pages.now x }
        ensures { Outcome pages.now n self.old self.new (λ w. Marked w x) result }
    {
        if SLOTS * n < x as usize {
            return None;
        }
        let i = (x - 1) as usize;
        if self.marks[i] != 0 {
            return Some(());
        }
        if !change::occupied(pages, x) {
            return None;
        }
        self.marks[i] = 1;
        self.queue[self.tail as usize] = x;
        self.tail += 1;
        Some(())
    }

    // Word f of an object of the queue: if it is a reference, the walk comes to what it names.
    fn follow_word(&mut self, pages: &[u32], n: usize, o: u32, f: u32) -> Option<()>
        requires { PagesOf pages.now n × Consistent (Entry pages.now) n self.old × Entry pages.now o × (f < slot_words) }
        ensures { Outcome pages.now n self.old self.new (λ w. Followed pages.now w o f) result }
    {
        if !change::is_ref(pages, o, f) {
            return Some(());
        }
        let x = change::word_of(pages, o, f);
        if x == 0 {
            return Some(());
        }
        self.visit(pages, n, x)
    }

    // Every word of an object of the queue.
    fn follow(&mut self, pages: &[u32], n: usize, o: u32) -> Option<()>
        requires { PagesOf pages.now n × Consistent (Entry pages.now) n self.old × Entry pages.now o }
        ensures { Outcome pages.now n self.old self.new (λ w. FollowedTo pages.now w o slot_words) result }
    {
        for f in 0..SLOT_WORDS as u32 {
            self.follow_word(pages, n, o, f)?;
        }
        Some(())
    }
}

// The walk from the root over an area of n pages, until every object of the queue is followed or one that is reached is not there.
fn walk_all(pages: &[u32], n: usize) -> Answer
    requires { (area_fits pages.now ≡ true) × (n ≡ pages_in (length pages.now)) }
    ensures { WholeAnswer pages.now result }
{
    let mut walk = Walk {
        tail: 0,
        marks: [0u32; MAX_OBJECTS],
        queue: [0u32; MAX_OBJECTS],
    };
    if walk.visit(pages, n, ROOT).is_none() {
        return Ok(0);
    }
    let mut head: u32 = 0;
    // No range or iterator goes over a queue that grows as it is read.
    while head < walk.tail {
        let o = walk.queue[head as usize];
        if walk.follow(pages, n, o).is_none() {
            return Ok(0);
        }
        head += 1;
    }
    Ok(1)
}

// Whether whatever the root reaches in these pages is occupied: the value is 1 where it is, and 0 where not. Refused where the length
// is not that of 1 to MAX_PAGES pages.
pub fn whole(pages: &[u32]) -> Answer
    ensures { WholeAnswer pages.now result }
{
    let n = pages.len() / PAGE_WORDS;
    if !((1 <= n) & (n <= MAX_PAGES) & (pages.len() == PAGE_WORDS * n)) {
        return Err(Refusal::Malformed);
    }
    walk_all(pages, n)
}
