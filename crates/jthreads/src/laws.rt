ghost use Rattle.std.specs.Prelude.{◌≡◌, ◌≢◌, ◌<◌, ℕ, List, Some, true, false, length, slice_get};
ghost use Rattle.std.specs.List.{Contains};
ghost use Rattle.std.specs.List.Sorted.{IsStrictlyIncreasing};
ghost use Rattle.jthreads.specs.declared.thread.Thread.{Thread};
ghost use Rattle.jthreads.specs.ThreadTables.{Awaits, is_runnable, is_started, lives_at, runnable_numbers, table_after_end, thread_at};

/// The laws of the table. The runnable numbers rise, and are those of the threads that are runnable. A thread that was never
/// started isn't among them. After the end of a thread nobody waits for it, and who waited for it is runnable.
pub fn thread_laws()
    ensures rising { (threads : List Thread) → IsStrictlyIncreasing (runnable_numbers threads) }
    ensures named { (threads : List Thread) (t : ℕ) → Contains (runnable_numbers threads) t → t < length threads }
    ensures only { (threads : List Thread) (t : ℕ) → Contains (runnable_numbers threads) t → is_runnable (thread_at threads t) ≡ true }
    ensures every { (threads : List Thread) (t : ℕ) → t < length threads → is_runnable (thread_at threads t) ≡ true
        → Contains (runnable_numbers threads) t }
    ensures unstarted { (threads : List Thread) (t : ℕ) → is_started threads t ≡ false → Contains (runnable_numbers threads) t → ⊥ }
    ensures nobody { (threads : List Thread) (t n : ℕ) (x : Thread) → slice_get (table_after_end t threads) n ≡ Some x → x.waits_for ≡ Some t → ⊥ }
    ensures again { (threads : List Thread) (t n : ℕ) → Awaits threads t n → Contains (runnable_numbers (table_after_end t threads)) n }
{}
