// Those that one object finds enter the queue in ascending number.
ghost use Rattle.std.specs.Prelude.{◌≡◌, ◌+◌, ◌-◌, ◌<◌, ◌≤◌, length, get_or};
ghost use Rattle.pages.specs.Geometry.{object_count, max_pages};
ghost use Rattle.chain_search.specs.Entering.{Inserted, Visited};

use crate::Search;

impl Search {
    // x enters the queue at its end, and goes before the higher ones that stand from first on.
    fn insert(&mut self, first: u32, x: u32)
        requires { (first ≤ self.old.tail) × (self.old.tail < object_count max_pages) × (object_count max_pages ≤ length self.old.queue) }
        ensures { Inserted self.old.queue first self.old.tail x self.new.queue × (self.new.tail ≡ self.old.tail + 1) × (self.new.from ≡ self.old.from) }
    {
        let end = self.tail;
        self.queue[end as usize] = x;
        self.tail = end + 1;
        for k in (first..end).rev() {
            let y = self.queue[k as usize];
            if y < x {
                return;
            }
            self.queue[k as usize + 1] = y;
            self.queue[k as usize] = x;
        }
    }

    // Object u names x: if nobody did before, u is its finder, and it enters the queue.
    pub(crate) fn visit(&mut self, first: u32, u: u32, x: u32)
        requires { (1 ≤ x) × (x ≤ object_count max_pages) × (first ≤ self.old.tail) × (get_or self.old.from (x - 1) 0 ≡ 0 → self.old.tail < object_count max_pages) × (object_count max_pages ≤ length self.old.queue) }
        ensures { Visited self.old.from self.old.queue first self.old.tail u x self.new.from self.new.queue self.new.tail }
    {
        let i = (x - 1) as usize;
        if self.from[i] != 0 {
            return;
        }
        self.from[i] = u;
        self.insert(first, x);
    }
}
