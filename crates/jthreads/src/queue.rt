ghost use Rattle.std.specs.Prelude.{◌≡◌, ◌<◌, ◌+◌, ◌++◌, ◌∷◌, ◌^◌, ℕ, [], IfSome, cond, length, vec_capacity};
ghost use Rattle.jthreads.specs.ThreadQueues.{nobody, queue_at};
ghost use Rattle.jthreads.specs.ProofNames.{is_at};

/// What is kept of those that wait for a thread: how many they are, the last one that came, and behind a thread that waits itself the
/// one that came before it. That the two say who waits is no matter of a proof; the count is.
#[derive(Clone, Copy, Debug, PartialEq, Eq)]
pub struct Queue {
    pub waiting: u64,
    pub first: u32,
    pub next: u32,
}

impl Queue {
    /// Nobody waits.
    pub(crate) fn new() -> Queue
        ensures { result ≡ nobody }
    {
        Queue {
            waiting: 0,
            first: 0,
            next: 0,
        }
    }
}

/// One less waits for a thread, where one is named.
pub(crate) fn one_less(queues: &mut Vec<Queue>, thread: Option<u32>)
    requires some { IfSome thread (λ t. 0 < (queue_at queues.old.items t).waiting) }
    requires named { IfSome thread (λ t. t < length queues.old.items) }
    ensures len { length queues.new.items ≡ length queues.old.items }
    ensures counts { (k : ℕ) → (queue_at queues.new.items k).waiting + cond (is_at k thread) 1 0 ≡ (queue_at queues.old.items k).waiting }
{
    if let Some(t) = thread {
        queues[t as usize].waiting -= 1;
    }
}

/// One more waits for a thread, where one is named.
pub(crate) fn one_more(queues: &mut Vec<Queue>, thread: Option<u32>)
    requires few { IfSome thread (λ t. (queue_at queues.old.items t).waiting + 1 < 2 ^ 64) }
    requires named { IfSome thread (λ t. t < length queues.old.items) }
    ensures len { length queues.new.items ≡ length queues.old.items }
    ensures counts { (k : ℕ) → (queue_at queues.new.items k).waiting ≡ (queue_at queues.old.items k).waiting + cond (is_at k thread) 1 0 }
{
    if let Some(t) = thread {
        queues[t as usize].waiting += 1;
    }
}

/// Puts the queue of a new thread behind the others, for which there is room.
pub(crate) fn list(queues: &mut Vec<Queue>)
    requires { length queues.old.items < vec_capacity queues.old }
    ensures { queues.new.items ≡ queues.old.items ++ nobody ∷ [] }
{
    queues.push(Queue::new()).unwrap();
}
