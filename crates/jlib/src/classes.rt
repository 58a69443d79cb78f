ghost use Rattle.std.specs.Prelude.{◌≡◌};
ghost use Rattle.jlib.specs.LibraryClasses;

use crate::class_row::{ClassRow, closed, closed_abstract, interface, open, open_abstract, top};
use crate::side::Side;
use crate::table::table;

/// How many classes the library has, both sides' together.
pub const LIBRARY_CLASSES: u32 = 46;

/// A class of the library that can be thrown, and that has both constructors: of a message, and of nothing. These are
/// `Throwable` and all below it but `AccessControlException`.
#[rattlefmt::skip]
#[derive(Clone, Copy, Debug, PartialEq, Eq)]
pub enum Thrown {
    Throwable, Exception, Error, RuntimeException, InterruptedException, ArithmeticException, NullPointerException, ClassCastException,
    NegativeArraySizeException, ArrayStoreException, IllegalArgumentException, IllegalStateException, IndexOutOfBoundsException,
    SecurityException, IllegalThreadStateException, ArrayIndexOutOfBoundsException, StringIndexOutOfBoundsException, LinkageError,
    VirtualMachineError, IncompatibleClassChangeError, AbstractMethodError, IllegalAccessError, StackOverflowError,
}

/// A class of permissions.
#[rattlefmt::skip]
#[derive(Clone, Copy, Debug, PartialEq, Eq)]
pub enum PermissionClass {
    Permission, BasicPermission, AllPermission, RuntimePermission, SecurityPermission, PropertyPermission, FilePermission,
}

/// A class or interface of the library, of either side. All are public.
#[rattlefmt::skip]
#[derive(Clone, Copy, Debug, PartialEq, Eq)]
pub enum LibClass {
    Object, Thrown(Thrown),
    /// It can be thrown too, and its one constructor is given a message.
    AccessControlException,
    String, StringBuilder, System, PrintStream, Void, Cloneable, Serializable, Runnable, Thread, PrivilegedAction, AccessController,
    AccessControlContext, Permission(PermissionClass),
    /// `sps/Rt`, of the passing side alone
    Rt,
    /// `sps/Ctx`, the class of contexts, of the passing side alone
    Ctx,
}

/// What a class is to users.
#[derive(Clone, Copy, Debug, PartialEq, Eq)]
pub(crate) enum ClassKind {
    /// Users may extend it.
    Open,
    /// Users may extend it, and make none.
    OpenAbstract,
    Closed,
    /// Users may neither extend it nor make one.
    ClosedAbstract,
    /// Users may implement it.
    Interface,
}

impl Thrown {
    /// Its row of the table of classes.
    fn row(self) -> ClassRow
        ensures { result ≡ LibraryClasses.thrown_row self }
    {
        table! { self;
            Thrown::Throwable => open(b"java/lang/Throwable", LibClass::Object);
            Thrown::Exception => open(b"java/lang/Exception", LibClass::Thrown(Thrown::Throwable));
            Thrown::Error => open(b"java/lang/Error", LibClass::Thrown(Thrown::Throwable));
            Thrown::RuntimeException => open(b"java/lang/RuntimeException", LibClass::Thrown(Thrown::Exception));
            Thrown::InterruptedException => open(b"java/lang/InterruptedException", LibClass::Thrown(Thrown::Exception));
            Thrown::ArithmeticException => open(b"java/lang/ArithmeticException", LibClass::Thrown(Thrown::RuntimeException));
            Thrown::NullPointerException => open(b"java/lang/NullPointerException", LibClass::Thrown(Thrown::RuntimeException));
            Thrown::ClassCastException => open(b"java/lang/ClassCastException", LibClass::Thrown(Thrown::RuntimeException));
            Thrown::NegativeArraySizeException => open(b"java/lang/NegativeArraySizeException", LibClass::Thrown(Thrown::RuntimeException));
            Thrown::ArrayStoreException => open(b"java/lang/ArrayStoreException", LibClass::Thrown(Thrown::RuntimeException));
            Thrown::IllegalArgumentException => open(b"java/lang/IllegalArgumentException", LibClass::Thrown(Thrown::RuntimeException));
            Thrown::IllegalStateException => open(b"java/lang/IllegalStateException", LibClass::Thrown(Thrown::RuntimeException));
            Thrown::IndexOutOfBoundsException => open(b"java/lang/IndexOutOfBoundsException", LibClass::Thrown(Thrown::RuntimeException));
            Thrown::SecurityException => open(b"java/lang/SecurityException", LibClass::Thrown(Thrown::RuntimeException));
            Thrown::IllegalThreadStateException => open(b"java/lang/IllegalThreadStateException", LibClass::Thrown(Thrown::IllegalArgumentException));
            Thrown::ArrayIndexOutOfBoundsException => open(b"java/lang/ArrayIndexOutOfBoundsException", LibClass::Thrown(Thrown::IndexOutOfBoundsException));
            Thrown::StringIndexOutOfBoundsException => open(b"java/lang/StringIndexOutOfBoundsException", LibClass::Thrown(Thrown::IndexOutOfBoundsException));
            Thrown::LinkageError => open(b"java/lang/LinkageError", LibClass::Thrown(Thrown::Error));
            Thrown::VirtualMachineError => open_abstract(b"java/lang/VirtualMachineError", LibClass::Thrown(Thrown::Error));
            Thrown::IncompatibleClassChangeError => open(b"java/lang/IncompatibleClassChangeError", LibClass::Thrown(Thrown::LinkageError));
            Thrown::AbstractMethodError => open(b"java/lang/AbstractMethodError", LibClass::Thrown(Thrown::IncompatibleClassChangeError));
            Thrown::IllegalAccessError => open(b"java/lang/IllegalAccessError", LibClass::Thrown(Thrown::IncompatibleClassChangeError));
            Thrown::StackOverflowError => open(b"java/lang/StackOverflowError", LibClass::Thrown(Thrown::VirtualMachineError));
        }
    }
}

impl PermissionClass {
    /// Its row of the table of classes.
    fn row(self) -> ClassRow
        ensures { result ≡ LibraryClasses.permission_row self }
    {
        table! { self;
            PermissionClass::Permission => closed_abstract(b"java/security/Permission", LibClass::Object);
            PermissionClass::BasicPermission => closed_abstract(b"java/security/BasicPermission", LibClass::Permission(PermissionClass::Permission));
            PermissionClass::AllPermission => closed(b"java/security/AllPermission", LibClass::Permission(PermissionClass::Permission));
            PermissionClass::RuntimePermission => closed(b"java/lang/RuntimePermission", LibClass::Permission(PermissionClass::BasicPermission));
            PermissionClass::SecurityPermission => closed(b"java/security/SecurityPermission", LibClass::Permission(PermissionClass::BasicPermission));
            PermissionClass::PropertyPermission => closed(b"java/util/PropertyPermission", LibClass::Permission(PermissionClass::BasicPermission));
            PermissionClass::FilePermission => closed(b"java/io/FilePermission", LibClass::Permission(PermissionClass::Permission));
        }
    }
}

impl LibClass {
    /// Its row of the table of classes.
    fn row(self) -> ClassRow
        ensures { result ≡ LibraryClasses.class_row self }
    {
        table! { self;
            LibClass::Object => top(b"java/lang/Object");
            LibClass::Thrown(thrown) => thrown.row();
            LibClass::AccessControlException => open(b"java/security/AccessControlException", LibClass::Thrown(Thrown::SecurityException));
            LibClass::String => closed(b"java/lang/String", LibClass::Object);
            LibClass::StringBuilder => closed(b"java/lang/StringBuilder", LibClass::Object);
            LibClass::System => closed(b"java/lang/System", LibClass::Object);
            LibClass::PrintStream => closed(b"java/io/PrintStream", LibClass::Object);
            LibClass::Void => closed(b"java/lang/Void", LibClass::Object);
            LibClass::Cloneable => interface(b"java/lang/Cloneable");
            LibClass::Serializable => interface(b"java/io/Serializable");
            LibClass::Runnable => interface(b"java/lang/Runnable");
            LibClass::Thread => closed(b"java/lang/Thread", LibClass::Object).implementing(LibClass::Runnable);
            LibClass::PrivilegedAction => interface(b"java/security/PrivilegedAction");
            LibClass::AccessController => closed(b"java/security/AccessController", LibClass::Object);
            LibClass::AccessControlContext => closed(b"java/security/AccessControlContext", LibClass::Object);
            LibClass::Permission(permission) => permission.row();
            LibClass::Rt => closed(b"sps/Rt", LibClass::Object).limit_to_side(Side::Passing);
            LibClass::Ctx => closed(b"sps/Ctx", LibClass::Object).limit_to_side(Side::Passing);
        }
    }

    /// Its name, with `/` between packages (JVMS 4.2.1).
    pub fn name(self) -> &'static [u8]
        ensures { result.now ≡ LibraryClasses.name_of self }
    {
        self.row().name()
    }

    /// Whether a side's library has it.
    pub fn stands_on(self, side: Side) -> bool
        ensures { result ≡ LibraryClasses.stands_on side self }
    {
        self.row().sides().include(side)
    }

    /// The class that it extends: none of Object, and Object of an interface.
    pub fn superclass(self) -> Option<LibClass>
        ensures { result ≡ LibraryClasses.superclass self }
    {
        self.row().superclass()
    }

    /// The interface that it implements, by name alone: Thread is a Runnable, though it declares no `run`.
    pub fn implemented(self) -> Option<LibClass>
        ensures { result ≡ LibraryClasses.implemented self }
    {
        self.row().implemented()
    }

    /// Whether it is an interface. Users may implement each.
    pub fn is_interface(self) -> bool
        ensures { result ≡ LibraryClasses.is_interface self }
    {
        matches!(self.row().kind(), ClassKind::Interface)
    }

    /// Whether users may extend it: Object, and what can be thrown.
    pub fn is_open(self) -> bool
        ensures { result ≡ LibraryClasses.is_open self }
    {
        matches!(self.row().kind(), ClassKind::Open | ClassKind::OpenAbstract)
    }

    /// Whether it is an abstract class, interfaces aside.
    pub fn is_abstract(self) -> bool
        ensures { result ≡ LibraryClasses.is_abstract self }
    {
        matches!(
            self.row().kind(),
            ClassKind::OpenAbstract | ClassKind::ClosedAbstract
        )
    }
}
