ghost use Rattle.std.specs.Prelude.{◌≡◌, ◌<◌, ◌++◌, ◌+◌, ℕ, List, Option, Some, None, slice_get};
ghost use Rattle.jground.specs.jbase.FirstFaults.{first_along, first_some, or_else};

/// The laws of the first failing test: none is found exactly where no test fails, and what is found is the fault of the
/// first item that has one.
pub fn first_along_laws<A, F>()
    ensures none_fails { (test : ℕ → A → Option F) (xs : List A) (k : ℕ) (x : A) → first_along test 0 xs ≡ None → slice_get xs k ≡ Some x
        → test k x ≡ None }
    ensures all_pass { (test : ℕ → A → Option F) (xs : List A) → ((k : ℕ) (x : A) → slice_get xs k ≡ Some x → test k x ≡ None)
        → first_along test 0 xs ≡ None }
    ensures first { (test : ℕ → A → Option F) (xs : List A) (fault : F) → first_along test 0 xs ≡ Some fault →
        (k : ℕ) × (x : A) × (slice_get xs k ≡ Some x) × (test k x ≡ Some fault) × ((j : ℕ) (y : A) → j < k → slice_get xs j ≡ Some y → test j y ≡ None) }
{}
