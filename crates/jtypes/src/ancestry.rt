ghost use Rattle.std.specs.Prelude.{◌≡◌, Bool, true, codes};
ghost use Rattle.jtypes.specs.declared.vtype.Name.{Name};
ghost use Rattle.jtypes.specs.ClassTrees.{InterfacesExtendTheirs, Tree};

use crate::vtype::Name;

/// What typing has to know of a program's classes: which names are interfaces, and which class stands below which.
pub trait Ancestry {
    /// What the calls answer.
    ghost tree: { Self → Tree };

    /// The program is one whose classes stand in order.
    ghost valid: { Self → Type 0 };

    /// Whether the name is an interface's.
    fn is_interface(&self, c: &Name) -> bool
        ensures value { result ≡ (tree self.now).is_interface c.now }
        ensures valid { valid self.now };

    /// Whether the class of the first name is that of the second or stands below it.
    fn extends(&self, c: &Name, d: &Name) -> bool
        ensures value { result ≡ (tree self.now).extends c.now d.now }
        ensures valid { valid self.now };

    /// A class extends itself.
    ghost reflexive: { (n : Self) (c : Name) → (tree n).extends c c ≡ true };

    /// A class extends what a class that it extends does.
    ghost transitive: { (n : Self) (c d e : Name) → valid n → (tree n).extends c d ≡ true → (tree n).extends d e ≡ true → (tree n).extends c e ≡ true };

    /// Every class extends `java/lang/Object`.
    ghost below_object: { (n : Self) (c d : Name) → valid n → d.0 ≡ codes "java/lang/Object" → (tree n).extends c d ≡ true };

    /// What an interface stands below is an interface or `java/lang/Object`.
    ghost above_interface: { (n : Self) → valid n → InterfacesExtendTheirs (tree n) };
}
