// The chain that a search has left: back from the object to the root by the finders, and from there into the buffer.
ghost use Rattle.std.specs.Prelude.{◌≡◌, ◌≤◌, length};
ghost use Rattle.calls.specs.Chains.{chain_words};
ghost use Rattle.chain_trace.specs.Tracing.{Traceable, Reversed};
ghost use Rattle.chain_trace.specs.Showing.{shown_from, cleared_from};

use pages::{MAX_OBJECTS, ROOT};

// The chain of object o, its objects from o to the root, in the places of the queue. Answers how many they are.
pub fn trace(from: &[u32; MAX_OBJECTS], queue: &mut [u32; MAX_OBJECTS], o: u32) -> usize
    requires { Traceable from.now queue.old o }
    ensures { Reversed from.now o queue.new result }
{
    queue[0] = o;
    let mut x = o;
    let mut d: usize = 1;
    // A while: the way back ends at the root, after a number of links that nothing tells before.
    while x != ROOT {
        x = from[(x - 1) as usize];
        queue[d] = x;
        d += 1;
    }
    d
}

// The first d words of the queue into the buffer, the last one first.
#[tactic(auto, using(page_laws::specs::Runs::fill_turn), unfolding(words::specs::Spans::fill))]
pub fn show(queue: &[u32; MAX_OBJECTS], buffer: &mut [u32], d: usize)
    requires { (length buffer.old ≡ chain_words) × (d ≤ chain_words) }
    ensures { buffer.new ≡ shown_from queue.now d buffer.old }
{
    // By index: over both at once, the queue from its end, the proof did not close (a zip of iter_mut).
    for i in 0..d {
        buffer[i] = queue[d - 1 - i];
    }
}

// The words of the buffer from d on become 0.
pub fn clear(buffer: &mut [u32], d: usize)
    requires { (length buffer.old ≡ chain_words) × (d ≤ chain_words) }
    ensures { buffer.new ≡ cleared_from d buffer.old }
{
    buffer[d..].fill(0);
}
