ghost use Rattle.std.specs.Prelude.{◌≡◌, ◌≤◌, ℕ, List, Ok, Err, length};
ghost use Rattle.jground.specs.declared.jformat.error.Fault.{Fault};
ghost use Rattle.jground.specs.jformat.Format.{IsBytes};
ghost use Rattle.jparts.specs.declared.jpool.entry.Entry.{Entry};
ghost use Rattle.jparts.specs.declared.jpool.fault.PoolFault.{PoolFault};
ghost use Rattle.jparts.specs.jpool.ConstantPools.{Spells, pool};

/// The laws of pools: bytes begin with the spelling of one pool at most, and a pool has one spelling; bytes begin with the
/// spelling of a pool exactly where reading them finds no fault; and a fault stands within the bytes.
pub fn pool_laws()
    ensures one_reading { (bytes rest others : List ℕ) (es fs : List Entry) → Spells bytes es rest → Spells bytes fs others → es ≡ fs }
    ensures one_spelling { (bytes others rest : List ℕ) (es : List Entry) → Spells bytes es rest → Spells others es rest → bytes ≡ others }
    ensures no_fault { (bytes rest : List ℕ) (es : List Entry) → IsBytes bytes → pool.read bytes ≡ Ok (es, rest) → Spells bytes es rest }
    ensures else_fault { (bytes rest : List ℕ) (es : List Entry) → Spells bytes es rest → pool.read bytes ≡ Ok (es, rest) }
    ensures within { (bytes : List ℕ) (d : Fault PoolFault) → pool.read bytes ≡ Err d → d.left ≤ length bytes }
{}
