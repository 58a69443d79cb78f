ghost use Rattle.std.specs.Prelude.{◌≡◌, ◌≤◌, List, ℕ, IsTrue, Ok, Some, length, slice_get};
ghost use Rattle.jground.specs.jformat.Format.{IsBytes};
ghost use Rattle.jparts.specs.declared.jpool.entry.Entry.TheVariants.{Utf8};
ghost use Rattle.jparts.specs.declared.jmaps.types.RawFrame.{RawFrame};
ghost use Rattle.jparts.specs.jmaps.StackMapFormat.{maps};
ghost use Rattle.jparts.specs.declared.jcode.op.Handler.{Handler};
ghost use Rattle.jparts.specs.declared.jcode.op.Placed.{Placed};
ghost use Rattle.jparts.specs.jcode.Instructions;
ghost use Rattle.jparts.specs.jcode.Instructions.{Rises, leads};
ghost use Rattle.jclass.specs.declared.class.ClassParts.{ClassParts};
ghost use Rattle.jclass.specs.declared.class.CodeAttribute.TheVariants.{Maps};
ghost use Rattle.jclass.specs.declared.class.CodeBody.{CodeBody};
ghost use Rattle.jclass.specs.PoolChecks.{is_modified};
ghost use Rattle.jclass.specs.Class.{Spells, class_file};
ghost use Rattle.jclass.specs.FileContents.{HasCode, IsIn, Leads};

/// A class file has one spelling, and bytes spell at most one class file.
pub fn spelling_laws()
    ensures one_spelling { (a b : List ℕ) (c : ClassParts) → Spells a c → Spells b c → a ≡ b }
    ensures one_class { (a : List ℕ) (c d : ClassParts) → Spells a c → Spells a d → c ≡ d }
    // Bytes spell a class file exactly where reading them finds no fault.
    ensures no_fault { (bytes : List ℕ) (c : ClassParts) → IsBytes bytes → class_file.read bytes ≡ Ok c → Spells bytes c }
    ensures else_fault { (bytes : List ℕ) (c : ClassParts) → Spells bytes c → class_file.read bytes ≡ Ok c }
{}

/// What a class file holds, so that who has one needs to test none of it again.
pub fn stored_laws()
    // A method's instructions are code of at most 65,535 bytes.
    ensures code { (c : ClassParts) (b : CodeBody) → HasCode c b → IsTrue (Instructions.code.fits b.ops) }
    ensures size { (c : ClassParts) (b : CodeBody) → HasCode c b → length (Instructions.code.spell b.ops) ≤ 0xffff }
    // Their places rise.
    ensures rises { (c : ClassParts) (b : CodeBody) → HasCode c b → Rises b.ops }
    // Each branch leads to an instruction.
    ensures branches { (c : ClassParts) (b : CodeBody) (p : Placed) → HasCode c b → IsIn p b.ops → IsTrue (leads b.ops p) }
    // Each handler covers instructions and leads to one.
    ensures handlers { (c : ClassParts) (b : CodeBody) (h : Handler) → HasCode c b → IsIn h b.handlers → Leads b.ops h }
    // The frames of a code are frames.
    ensures frames { (c : ClassParts) (b : CodeBody) (name : ℕ) (fs : List RawFrame) → HasCode c b → IsIn (Maps name fs) b.attributes
        → IsTrue (maps.fits fs) }
    // Each text of the pool is modified UTF-8.
    ensures texts { (c : ClassParts) (i : ℕ) (text : List ℕ) → IsTrue (class_file.fits c) → slice_get c.pool i ≡ Some (Utf8 text)
        → IsTrue (is_modified text) }
{}
