ghost use Rattle.std.specs.Prelude.{◌≡◌, true};
ghost use Rattle.jlib.specs.LibraryClasses as library;
ghost use Rattle.jresolution.specs.jprogram.ProgramClasses;
ghost use Rattle.jresolution.specs.jprogram.ProgramClasses.{name_at};
ghost use Rattle.jresolution.specs.jprogram.ImplementedInterfaces.{IsNumber};
ghost use Rattle.jresolution.specs.jprogram.OrderedPrograms.{StandsInOrder};

use crate::jlink::linked::LinkedProgram;
use jlib::{LibClass, Side};
use jresolution::jprogram::{ClassRef, NamedProgram};

/// Whether a side's library has a class, without the rest of its row. All but two stand on both sides.
#[tactic(auto, using(crate::proofs::JlinkProofs::UserClassNumbers::thrown_stand, crate::proofs::JlinkProofs::UserClassNumbers::permissions_stand))]
fn stands_on(class: LibClass, side: Side) -> bool
    ensures { result ≡ library.stands_on side class }
{
    match class {
        LibClass::Rt => matches!(side, Side::Passing),
        LibClass::Ctx => matches!(side, Side::Passing),
        LibClass::Thrown(_) => true,
        LibClass::Permission(_) => true,
        LibClass::Object => true,
        LibClass::AccessControlException => true,
        LibClass::String => true,
        LibClass::StringBuilder => true,
        LibClass::System => true,
        LibClass::PrintStream => true,
        LibClass::Void => true,
        LibClass::Cloneable => true,
        LibClass::Serializable => true,
        LibClass::Runnable => true,
        LibClass::Thread => true,
        LibClass::PrivilegedAction => true,
        LibClass::AccessController => true,
        LibClass::AccessControlContext => true,
    }
}

impl LinkedProgram {
    /// The program with its names. Its classes stand in order.
    pub fn in_order(&self) -> &NamedProgram
        ensures same { result.now ≡ self.now }
        ensures order { StandsInOrder self.now }
    {
        self.named()
    }

    /// Whether a number is that of a class of the program: of a part, or of its side's library. Each number that a machine meets is.
    pub fn is_known(&self, class: ClassRef) -> bool
        ensures known { result ≡ true → IsNumber self.now class }
        ensures only { IsNumber self.now class → result ≡ true }
    {
        let p = self.in_order();
        match class {
            ClassRef::User(i) => (i as usize) < p.parts().len(),
            ClassRef::Lib(c) => stands_on(c, p.side()),
        }
    }

    /// Whether the class of the first number has the interface of the second, itself or by a class above it, directly or through others.
    /// Names are looked at only where a number is that of no class of the program. It takes no memory.
    pub fn implements_at(&self, class: ClassRef, interface: ClassRef) -> bool
        ensures { result ≡ ProgramClasses.implements self.now (name_at self.now class) (name_at self.now interface) }
    {
        let p = self.in_order();
        if self.is_known(class) {
            if self.is_known(interface) {
                return p.implements_at(self.interfaces(), class, interface);
            }
        }
        p.implements(self.interfaces(), p.name_of(class), p.name_of(interface))
    }
}
