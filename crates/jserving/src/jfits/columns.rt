ghost use Rattle.std.specs.Prelude.{◌≡◌, Some};
ghost use Rattle.jlib.specs.LibraryClasses as library;

use jlib::{LibClass, PermissionClass, Thrown};

// What the table of the library's classes says of a class, without the rest of its row.

fn above_thrown(class: Thrown) -> LibClass
    ensures { Some result ≡ library.superclass (LibClass.Thrown class) }
{
    match class {
        Thrown::Throwable => LibClass::Object,
        Thrown::Exception => LibClass::Thrown(Thrown::Throwable),
        Thrown::Error => LibClass::Thrown(Thrown::Throwable),
        Thrown::RuntimeException => LibClass::Thrown(Thrown::Exception),
        Thrown::InterruptedException => LibClass::Thrown(Thrown::Exception),
        Thrown::ArithmeticException => LibClass::Thrown(Thrown::RuntimeException),
        Thrown::NullPointerException => LibClass::Thrown(Thrown::RuntimeException),
        Thrown::ClassCastException => LibClass::Thrown(Thrown::RuntimeException),
        Thrown::NegativeArraySizeException => LibClass::Thrown(Thrown::RuntimeException),
        Thrown::ArrayStoreException => LibClass::Thrown(Thrown::RuntimeException),
        Thrown::IllegalArgumentException => LibClass::Thrown(Thrown::RuntimeException),
        Thrown::IllegalStateException => LibClass::Thrown(Thrown::RuntimeException),
        Thrown::IndexOutOfBoundsException => LibClass::Thrown(Thrown::RuntimeException),
        Thrown::SecurityException => LibClass::Thrown(Thrown::RuntimeException),
        Thrown::IllegalThreadStateException => LibClass::Thrown(Thrown::IllegalArgumentException),
        Thrown::ArrayIndexOutOfBoundsException => LibClass::Thrown(
            Thrown::IndexOutOfBoundsException,
        ),
        Thrown::StringIndexOutOfBoundsException => LibClass::Thrown(
            Thrown::IndexOutOfBoundsException,
        ),
        Thrown::LinkageError => LibClass::Thrown(Thrown::Error),
        Thrown::VirtualMachineError => LibClass::Thrown(Thrown::Error),
        Thrown::IncompatibleClassChangeError => LibClass::Thrown(Thrown::LinkageError),
        Thrown::AbstractMethodError => LibClass::Thrown(Thrown::IncompatibleClassChangeError),
        Thrown::IllegalAccessError => LibClass::Thrown(Thrown::IncompatibleClassChangeError),
        Thrown::StackOverflowError => LibClass::Thrown(Thrown::VirtualMachineError),
    }
}

fn above_permission(class: PermissionClass) -> LibClass
    ensures { Some result ≡ library.superclass (LibClass.Permission class) }
{
    match class {
        PermissionClass::Permission => LibClass::Object,
        PermissionClass::BasicPermission => LibClass::Permission(PermissionClass::Permission),
        PermissionClass::AllPermission => LibClass::Permission(PermissionClass::Permission),
        PermissionClass::RuntimePermission => LibClass::Permission(
            PermissionClass::BasicPermission,
        ),
        PermissionClass::SecurityPermission => LibClass::Permission(
            PermissionClass::BasicPermission,
        ),
        PermissionClass::PropertyPermission => LibClass::Permission(
            PermissionClass::BasicPermission,
        ),
        PermissionClass::FilePermission => LibClass::Permission(PermissionClass::Permission),
    }
}

/// The class that a class of the library extends.
pub(crate) fn above(class: LibClass) -> Option<LibClass>
    ensures { result ≡ library.superclass class }
{
    match class {
        LibClass::Object => None,
        LibClass::Thrown(class) => Some(above_thrown(class)),
        LibClass::AccessControlException => Some(LibClass::Thrown(Thrown::SecurityException)),
        LibClass::Permission(class) => Some(above_permission(class)),
        LibClass::String => Some(LibClass::Object),
        LibClass::StringBuilder => Some(LibClass::Object),
        LibClass::System => Some(LibClass::Object),
        LibClass::PrintStream => Some(LibClass::Object),
        LibClass::Void => Some(LibClass::Object),
        LibClass::Cloneable => Some(LibClass::Object),
        LibClass::Serializable => Some(LibClass::Object),
        LibClass::Runnable => Some(LibClass::Object),
        LibClass::Thread => Some(LibClass::Object),
        LibClass::PrivilegedAction => Some(LibClass::Object),
        LibClass::AccessController => Some(LibClass::Object),
        LibClass::AccessControlContext => Some(LibClass::Object),
        LibClass::Rt => Some(LibClass::Object),
        LibClass::Ctx => Some(LibClass::Object),
    }
}

/// Whether a class of the library is an interface.
#[tactic(auto, using(crate::proofs::JfitsProofs::ClassKinds::no_thrown, crate::proofs::JfitsProofs::ClassKinds::no_permission))]
pub(crate) fn is_interface(class: LibClass) -> bool
    ensures { result ≡ library.is_interface class }
{
    match class {
        LibClass::Cloneable => true,
        LibClass::Serializable => true,
        LibClass::Runnable => true,
        LibClass::PrivilegedAction => true,
        LibClass::Thrown(_) => false,
        LibClass::Permission(_) => false,
        LibClass::Object => false,
        LibClass::AccessControlException => false,
        LibClass::String => false,
        LibClass::StringBuilder => false,
        LibClass::System => false,
        LibClass::PrintStream => false,
        LibClass::Void => false,
        LibClass::Thread => false,
        LibClass::AccessController => false,
        LibClass::AccessControlContext => false,
        LibClass::Rt => false,
        LibClass::Ctx => false,
    }
}
