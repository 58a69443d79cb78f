ghost use Rattle.std.specs.Prelude.{◌≡◌, List, ℕ, Some, option_map, slice_get, true};
ghost use Rattle.jlib.specs.declared.classes.LibClass.{LibClass};
ghost use Rattle.jlib.specs.LibraryClasses as library;
ghost use Rattle.jtypes.specs.ClassTrees.{InterfacesExtendTheirs};
ghost use Rattle.jresolution.specs.declared.jprogram.part.ClassRef.{ClassRef};
ghost use Rattle.jresolution.specs.declared.jprogram.part.ClassRef.TheVariants as refs;
ghost use Rattle.jresolution.specs.declared.jprogram.part.CodePart.{CodePart};
ghost use Rattle.jresolution.specs.jprogram.ProgramClasses.{Program, extends, find, name_at, object, ref_of, tree};
ghost use Rattle.jresolution.specs.jprogram.ImplementedInterfaces.{IsNumber};
ghost use Rattle.jresolution.specs.jprogram.InterfaceSearch.{IsLayered};
ghost use Rattle.jresolution.specs.jprogram.ClassFileParts.{this_name};
ghost use Rattle.jresolution.specs.jprogram.OrderedPrograms.{IsStraight, StandsInOrder};

/// The laws of programs. A class extends itself and `java/lang/Object`. Where the classes stand in order, which is so where the first two
/// phases of linking find no fault, no class stands above itself and no interface among its own, so that members can be resolved;
/// a class extends what a class that it extends does, and two that extend one another are one; and what an interface extends is an
/// interface or `java/lang/Object`.
pub fn program_laws()
    ensures itself { (p : Program) (c : List ℕ) → extends p c c ≡ true }
    ensures below_object { (p : Program) (c : List ℕ) → extends p c object ≡ true }
    ensures straight { (p : Program) → StandsInOrder p → IsStraight p }
    ensures layered { (p : Program) → StandsInOrder p → IsLayered p }
    ensures chain { (p : Program) (c d e : List ℕ) → StandsInOrder p → extends p c d ≡ true → extends p d e ≡ true → extends p c e ≡ true }
    ensures once { (p : Program) (c d : List ℕ) → StandsInOrder p → extends p c d ≡ true → extends p d c ≡ true → c ≡ d }
    ensures interfaces { (p : Program) → StandsInOrder p → InterfacesExtendTheirs (tree p) }
{}

/// The laws of classes by number. The number of a class that is found by a name has this name, and the class of that name has this
/// number. Where the classes stand in order, each part's class has the number of its place, and each class of the side's library its
/// own.
pub fn number_laws()
    ensures named { (p : Program) (name : List ℕ) (r : ClassRef) → option_map ref_of (find p name) ≡ Some r → name_at p r ≡ name }
    ensures number { (p : Program) (name : List ℕ) (r : ClassRef) → option_map ref_of (find p name) ≡ Some r → IsNumber p r }
    ensures own { (p : Program) (i : ℕ) (part : CodePart) → StandsInOrder p → slice_get p.parts i ≡ Some part
        → option_map ref_of (find p (this_name part.class)) ≡ Some (refs.User i) }
    ensures library { (p : Program) (c : LibClass) → StandsInOrder p → library.stands_on p.side c ≡ true
        → option_map ref_of (find p (library.name_of c)) ≡ Some (refs.Lib c) }
{}
