// What the writers of a shelf keep of it, for every kind of thing and every total order. Each
// function here states one law, and a check of the crate proves it: to call it does nothing.
ghost use Rattle.shelf.specs.Laws.{PutKeepsOrder, TakeOutKeepsOrder, ReplaceKeepsOrder, RunKeepsOrder, RunKeepsCount};

// A put keeps a sorted shelf sorted, where nothing that stands has the label of what comes.
pub fn put_keeps_order<T, K>()
    ensures { PutKeepsOrder T K }
{}

// A take-out keeps a sorted shelf sorted.
pub fn take_out_keeps_order<T, K>()
    ensures { TakeOutKeepsOrder T K }
{}

// A replacement by a thing of the same key keeps a sorted shelf sorted.
pub fn replace_keeps_order<T, K>()
    ensures { ReplaceKeepsOrder T K }
{}

// Any run of such writes keeps a sorted shelf sorted.
pub fn run_keeps_order<T, K>()
    ensures { RunKeepsOrder T K }
{}

// After any run of writes, what came onto the shelf and did not leave is what stands, each once.
pub fn run_keeps_count<T>()
    ensures { RunKeepsCount T }
{}
