ghost use Rattle.std.specs.Prelude.{◌≡◌, ◌<◌, ◌∷◌, List, ℕ, Some, None, true, false};
ghost use Rattle.jlib.specs.declared.side.Side.{Side};
ghost use Rattle.jlib.specs.declared.classes.LibClass.{LibClass};
ghost use Rattle.jlib.specs.declared.classes.LibClass.TheVariants as lib;
ghost use Rattle.jlib.specs.declared.calls.LibCall.{LibCall};
ghost use Rattle.jlib.specs.LibraryClasses.{above, class_named, height, implemented, is_interface, is_open, name_of, stands_on, superclass};
ghost use Rattle.jlib.specs.LibraryMembers.{IsMember, call_stands_on, desc_of, member_named, name_of_call, owner};

/// The laws of classes. What is found has the name and is the side's, and each class of the side is found by its name, so that
/// no two share one. What a class extends is no interface, and both sides have it; what a class implements is an interface, and
/// both sides have it. A superclass has a smaller height than what extends it, and Object alone has none: so the chain of what
/// stands above a class ends, in Object. What an open class extends is open, and both sides have it.
pub fn class_laws()
    ensures found { (side : Side) (name : List ℕ) (c : LibClass) → class_named side name ≡ Some c → (name_of c ≡ name) × (stands_on side c ≡ true) }
    ensures only { (side : Side) (c : LibClass) → stands_on side c ≡ true → class_named side (name_of c) ≡ Some c }
    ensures extended { (side : Side) (c s : LibClass) → superclass c ≡ Some s → (is_interface s ≡ false) × (stands_on side s ≡ true) }
    ensures followed { (side : Side) (c i : LibClass) → implemented c ≡ Some i → (is_interface i ≡ true) × (stands_on side i ≡ true) }
    ensures next { (c s : LibClass) → superclass c ≡ Some s → above c ≡ s ∷ above s }
    ensures lower { (c s : LibClass) → superclass c ≡ Some s → height s < height c }
    ensures top { (c : LibClass) → superclass c ≡ None → c ≡ lib.Object }
    ensures still_open { (c s : LibClass) → superclass c ≡ Some s → is_open c ≡ true → is_open s ≡ true }
    ensures opened { (side : Side) (c : LibClass) → is_open c ≡ true → stands_on side c ≡ true }
{}

/// The laws of members. What is found stands in the named class, has the name and the descriptor and is the side's, and each
/// member of the side is found by these.
pub fn call_laws()
    ensures found { (side : Side) (class name desc : List ℕ) (m : LibCall) → member_named side class name desc ≡ Some m
        → IsMember side class name desc m }
    ensures only { (side : Side) (m : LibCall) → call_stands_on side m ≡ true
        → member_named side (name_of (owner m)) (name_of_call m) (desc_of m) ≡ Some m }
{}
