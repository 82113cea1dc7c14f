// The search for the chain of references that keeps an object: a queue of objects, each with its finder. Each reference of an object
// that is taken from the queue is looked at once.
#![tactic(auto)]

mod entering;

ghost use Rattle.std.specs.Prelude.{◌≡◌, ℕ, ◌+◌, ◌<◌, ◌≤◌, length, get_or};
ghost use Rattle.pages.specs.Geometry.{slot_words, max_pages, object_count};
ghost use Rattle.chain_laws.specs.Links.{Object};
ghost use Rattle.chain_search.specs.Following.{SearchedArea, Taking, Shows};
ghost use Rattle.chain_search.specs.Ending.{Ended};

use page_ops::change;
use pages::{MAX_OBJECTS, ROOT, SLOT_WORDS};

// The objects found: the finder of each, at its number less 1, and a queue of them, which ends at tail. Lent and never moved: an array has
// 16 KiB. With tail first and of 32 bits, a write at an index of 32 bits cannot reach it; how far the search has come is no field, since
// the loop would keep it in memory (tried: some 5% slower over four references each).
#[derive(Drop)]
pub struct Search {
    tail: u32,
    pub from: [u32; MAX_OBJECTS],
    pub queue: [u32; MAX_OBJECTS],
}

impl Search {
    // Nobody is found.
    pub fn new() -> Search
        ensures { ((i : ℕ) → get_or result.from i 0 ≡ 0) × (object_count max_pages ≤ length result.from) × (object_count max_pages ≤ length result.queue) }
    {
        Search {
            tail: 0,
            from: [0; MAX_OBJECTS],
            queue: [0; MAX_OBJECTS],
        }
    }

    // Word f of object u, which stands at head: what it names is visited. first: where the queue ended when u was taken.
    fn follow_word(&mut self, copies: &[u32], n: usize, head: u32, first: u32, u: u32, f: u32)
        requires { SearchedArea copies.now n × Taking copies.now n head first u f self.old.from self.old.queue self.old.tail × (f < slot_words) }
        ensures { Taking copies.now n head first u (f + 1) self.new.from self.new.queue self.new.tail }
    {
        if !change::is_ref(copies, u, f) {
            return;
        }
        let x = change::word_of(copies, u, f);
        if x == 0 {
            return;
        }
        self.visit(first, u, x);
    }

    // Every word of the object at head.
    fn follow(&mut self, copies: &[u32], n: usize, head: u32)
        requires { SearchedArea copies.now n × Shows copies.now n head self.old.from self.old.queue self.old.tail × (head < self.old.tail) }
        ensures { Shows copies.now n (head + 1) self.new.from self.new.queue self.new.tail }
    {
        let u = self.queue[head as usize];
        let first = self.tail;
        for f in 0..SLOT_WORDS as u32 {
            self.follow_word(copies, n, head, first, u, f);
        }
    }

    // The search from the root until object o is found or nobody is left. Answers whether it was found.
    pub fn search(&mut self, copies: &[u32], n: usize, o: u32) -> bool
        requires { SearchedArea copies.now n × Object n o × ((i : ℕ) → get_or self.old.from i 0 ≡ 0) × (object_count max_pages ≤ length self.old.from) × (object_count max_pages ≤ length self.old.queue) }
        ensures { Ended copies.now n o self.new.from result × (object_count max_pages ≤ length self.new.queue) }
    {
        self.from[0] = ROOT;
        self.queue[0] = ROOT;
        self.tail = 1;
        let i = (o - 1) as usize;
        let mut head: u32 = 0;
        // A while: the queue grows as it is walked, so that no range says where it ends.
        while head < self.tail {
            if self.from[i] != 0 {
                return true;
            }
            self.follow(copies, n, head);
            head += 1;
        }
        self.from[i] != 0
    }
}
