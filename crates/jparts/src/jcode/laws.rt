ghost use Rattle.std.specs.Prelude.{◌≡◌, ℕ, List, Ok};
ghost use Rattle.jground.specs.jformat.Format.{IsBytes};
ghost use Rattle.jparts.specs.declared.jcode.op.Placed.{Placed};
ghost use Rattle.jparts.specs.jcode.Instructions.{Rises, Spells, code};

/// The laws of code: bytes spell one list of instructions at most, and a list of instructions has one spelling at most; the
/// places of instructions rise.
pub fn code_laws()
    ensures one_reading { (bytes : List ℕ) (ps qs : List Placed) → Spells bytes ps → Spells bytes qs → ps ≡ qs }
    ensures one_spelling { (bytes others : List ℕ) (ps : List Placed) → Spells bytes ps → Spells others ps → bytes ≡ others }
    // Bytes spell instructions exactly where reading them finds no fault.
    ensures no_fault { (bytes : List ℕ) (ps : List Placed) → IsBytes bytes → code.read bytes ≡ Ok ps → Spells bytes ps }
    ensures else_fault { (bytes : List ℕ) (ps : List Placed) → Spells bytes ps → code.read bytes ≡ Ok ps }
    ensures rises { (bytes : List ℕ) (ps : List Placed) → Spells bytes ps → Rises ps }
{}
