ghost use Rattle.std.specs.Prelude.{◌≡◌};
ghost use Rattle.jlib.specs.LibraryMembers;
ghost use Rattle.jlib.specs.declared.calls.LibCall.TheVariants as calls;

use crate::classes::{LibClass, PermissionClass, Thrown};
use crate::member_row::{
    MemberRow, abstract_on, constructor, constructor_on, method, static_field, static_method,
    static_on,
};
use crate::side::Side;
use crate::table::table;

/// What a constructor of a throwable is given.
#[rattlefmt::skip]
#[derive(Clone, Copy, Debug, PartialEq, Eq)]
pub enum ThrownInit { Message, Nothing }

/// What a member is.
#[derive(Clone, Copy, Debug, PartialEq, Eq)]
pub(crate) enum MemberKind {
    StaticField,
    StaticMethod,
    Constructor,
    /// A method of an instance.
    Method,
    /// A method of an instance, which the classes that implement the interface have to declare.
    AbstractMethod,
}

/// What is printed or appended.
#[rattlefmt::skip]
#[derive(Clone, Copy, Debug, PartialEq, Eq)]
pub enum PrintedType { Int, Long, Char, Bool, Text }

/// A method of String.
#[rattlefmt::skip]
#[derive(Clone, Copy, Debug, PartialEq, Eq)]
pub enum StringCall { Length, CharAt, Equals, Concat }

/// A member of StringBuilder.
#[derive(Clone, Copy, Debug, PartialEq, Eq)]
pub enum BuilderCall {
    /// The constructor of an empty builder.
    Init,
    /// The constructor of a text.
    InitText,
    Append(PrintedType),
    ToString,
}

/// A member of Thread.
#[derive(Clone, Copy, Debug, PartialEq, Eq)]
pub enum ThreadCall {
    /// The constructor. On the passing side it is given a context too.
    Init(Side),
    Start,
    Join,
    Yield,
}

/// A method of AccessController, of the source side alone.
#[derive(Clone, Copy, Debug, PartialEq, Eq)]
pub enum ControllerCall {
    /// checkPermission
    Check,
    /// getContext
    Snapshot,
    /// doPrivileged of an action
    Privileged,
    /// doPrivileged of an action and a context
    PrivilegedWith,
    /// doPrivileged of an action, a context and permissions
    PrivilegedLimited,
}

/// A constructor of a class of permissions.
#[derive(Clone, Copy, Debug, PartialEq, Eq)]
pub enum PermissionInit {
    All,
    Runtime,
    /// Its actions are ignored.
    RuntimeActions,
    Security,
    /// Its actions are ignored.
    SecurityActions,
    Property,
    File,
}

/// A method of `sps/Rt`, of the passing side alone.
#[rattlefmt::skip]
#[derive(Clone, Copy, Debug, PartialEq, Eq)]
pub enum RtCall { Enter, Check, Snapshot, Privileged, PrivilegedWith, PrivilegedLimited }

/// A member that a class of the library declares itself: the field `System.out`, a method or a constructor. All are public. A
/// member whose descriptor differs between the sides is told apart by its side.
#[rattlefmt::skip]
#[derive(Clone, Copy, Debug, PartialEq, Eq)]
pub enum LibCall {
    ObjectInit, ThrownInit(Thrown, ThrownInit),
    /// The constructor of AccessControlException, which is given a message.
    AccessControlInit,
    /// Throwable's getMessage
    GetMessage,
    String(StringCall), Builder(BuilderCall),
    /// The static field `out` of System, which is not to be written.
    Out,
    /// println of nothing
    PrintEnd,
    /// println
    Print(PrintedType),
    /// Runnable's run. On the passing side it is given a context.
    Run(Side),
    Thread(ThreadCall),
    /// PrivilegedAction's run. On the passing side it is given a context.
    RunAction(Side),
    Controller(ControllerCall),
    /// AccessControlContext's checkPermission
    ContextCheck,
    PermissionInit(PermissionInit), Rt(RtCall),
}

impl PrintedType {
    /// The row of println of such a piece.
    fn print_row(self) -> MemberRow
        ensures { result ≡ LibraryMembers.row_of (calls.Print self) }
    {
        table! { self;
            PrintedType::Int => method(LibClass::PrintStream, b"println", b"(I)V");
            PrintedType::Long => method(LibClass::PrintStream, b"println", b"(J)V");
            PrintedType::Char => method(LibClass::PrintStream, b"println", b"(C)V");
            PrintedType::Bool => method(LibClass::PrintStream, b"println", b"(Z)V");
            PrintedType::Text => method(LibClass::PrintStream, b"println", b"(Ljava/lang/String;)V");
        }
    }
}

impl StringCall {
    /// Its row of the table of members.
    fn row(self) -> MemberRow
        ensures { result ≡ LibraryMembers.row_of (calls.String self) }
    {
        table! { self;
            StringCall::Length => method(LibClass::String, b"length", b"()I");
            StringCall::CharAt => method(LibClass::String, b"charAt", b"(I)C");
            StringCall::Equals => method(LibClass::String, b"equals", b"(Ljava/lang/Object;)Z");
            StringCall::Concat => method(LibClass::String, b"concat", b"(Ljava/lang/String;)Ljava/lang/String;");
        }
    }
}

impl BuilderCall {
    /// Its row of the table of members.
    fn row(self) -> MemberRow
        ensures { result ≡ LibraryMembers.row_of (calls.Builder self) }
    {
        table! { self;
            BuilderCall::Init => constructor(LibClass::StringBuilder, b"()V");
            BuilderCall::InitText => constructor(LibClass::StringBuilder, b"(Ljava/lang/String;)V");
            BuilderCall::Append(PrintedType::Int) => method(LibClass::StringBuilder, b"append", b"(I)Ljava/lang/StringBuilder;");
            BuilderCall::Append(PrintedType::Long) => method(LibClass::StringBuilder, b"append", b"(J)Ljava/lang/StringBuilder;");
            BuilderCall::Append(PrintedType::Char) => method(LibClass::StringBuilder, b"append", b"(C)Ljava/lang/StringBuilder;");
            BuilderCall::Append(PrintedType::Bool) => method(LibClass::StringBuilder, b"append", b"(Z)Ljava/lang/StringBuilder;");
            BuilderCall::Append(PrintedType::Text) => method(LibClass::StringBuilder, b"append", b"(Ljava/lang/String;)Ljava/lang/StringBuilder;");
            BuilderCall::ToString => method(LibClass::StringBuilder, b"toString", b"()Ljava/lang/String;");
        }
    }
}

impl ThreadCall {
    /// Its row of the table of members.
    fn row(self) -> MemberRow
        ensures { result ≡ LibraryMembers.row_of (calls.Thread self) }
    {
        table! { self;
            ThreadCall::Init(Side::Source) => constructor_on(Side::Source, LibClass::Thread, b"(Ljava/lang/Runnable;)V");
            ThreadCall::Init(Side::Passing) => constructor_on(Side::Passing, LibClass::Thread, b"(Ljava/lang/Runnable;Lsps/Ctx;)V");
            ThreadCall::Start => method(LibClass::Thread, b"start", b"()V");
            ThreadCall::Join => method(LibClass::Thread, b"join", b"()V");
            ThreadCall::Yield => static_method(LibClass::Thread, b"yield", b"()V");
        }
    }
}

impl ControllerCall {
    /// Its row of the table of members.
    fn row(self) -> MemberRow
        ensures { result ≡ LibraryMembers.controller_row self }
    {
        table! { self;
            ControllerCall::Check => static_on(Side::Source, LibClass::AccessController, b"checkPermission", b"(Ljava/security/Permission;)V");
            ControllerCall::Snapshot => static_on(Side::Source, LibClass::AccessController, b"getContext", b"()Ljava/security/AccessControlContext;");
            ControllerCall::Privileged => static_on(Side::Source, LibClass::AccessController, b"doPrivileged", b"(Ljava/security/PrivilegedAction;)Ljava/lang/Object;");
            ControllerCall::PrivilegedWith => static_on(Side::Source, LibClass::AccessController, b"doPrivileged",
                b"(Ljava/security/PrivilegedAction;Ljava/security/AccessControlContext;)Ljava/lang/Object;");
            ControllerCall::PrivilegedLimited => static_on(Side::Source, LibClass::AccessController, b"doPrivileged",
                b"(Ljava/security/PrivilegedAction;Ljava/security/AccessControlContext;[Ljava/security/Permission;)Ljava/lang/Object;");
        }
    }
}

impl PermissionInit {
    /// Its row of the table of members.
    fn row(self) -> MemberRow
        ensures { result ≡ LibraryMembers.permission_row self }
    {
        table! { self;
            PermissionInit::All => constructor(LibClass::Permission(PermissionClass::AllPermission), b"()V");
            PermissionInit::Runtime => constructor(LibClass::Permission(PermissionClass::RuntimePermission), b"(Ljava/lang/String;)V");
            PermissionInit::RuntimeActions => constructor(LibClass::Permission(PermissionClass::RuntimePermission), b"(Ljava/lang/String;Ljava/lang/String;)V");
            PermissionInit::Security => constructor(LibClass::Permission(PermissionClass::SecurityPermission), b"(Ljava/lang/String;)V");
            PermissionInit::SecurityActions => constructor(LibClass::Permission(PermissionClass::SecurityPermission), b"(Ljava/lang/String;Ljava/lang/String;)V");
            PermissionInit::Property => constructor(LibClass::Permission(PermissionClass::PropertyPermission), b"(Ljava/lang/String;Ljava/lang/String;)V");
            PermissionInit::File => constructor(LibClass::Permission(PermissionClass::FilePermission), b"(Ljava/lang/String;Ljava/lang/String;)V");
        }
    }
}

impl RtCall {
    /// Its row of the table of members.
    fn row(self) -> MemberRow
        ensures { result ≡ LibraryMembers.rt_row self }
    {
        table! { self;
            RtCall::Enter => static_on(Side::Passing, LibClass::Rt, b"enter", b"(Lsps/Ctx;I)Lsps/Ctx;");
            RtCall::Check => static_on(Side::Passing, LibClass::Rt, b"check", b"(Ljava/security/Permission;Lsps/Ctx;)V");
            RtCall::Snapshot => static_on(Side::Passing, LibClass::Rt, b"snapshot", b"(Lsps/Ctx;)Ljava/security/AccessControlContext;");
            RtCall::Privileged => static_on(Side::Passing, LibClass::Rt, b"priv", b"(Ljava/security/PrivilegedAction;I)Ljava/lang/Object;");
            RtCall::PrivilegedWith => static_on(Side::Passing, LibClass::Rt, b"privWith",
                b"(Ljava/security/PrivilegedAction;Ljava/security/AccessControlContext;I)Ljava/lang/Object;");
            RtCall::PrivilegedLimited => static_on(Side::Passing, LibClass::Rt, b"privLimited",
                b"(Ljava/security/PrivilegedAction;Ljava/security/AccessControlContext;[Ljava/security/Permission;Lsps/Ctx;I)Ljava/lang/Object;");
        }
    }
}

impl LibCall {
    /// Its row of the table of members.
    fn row(self) -> MemberRow
        ensures { result ≡ LibraryMembers.row_of self }
    {
        table! { self;
            LibCall::ObjectInit => constructor(LibClass::Object, b"()V");
            LibCall::ThrownInit(thrown, ThrownInit::Message) => constructor(LibClass::Thrown(thrown), b"(Ljava/lang/String;)V");
            LibCall::ThrownInit(thrown, ThrownInit::Nothing) => constructor(LibClass::Thrown(thrown), b"()V");
            LibCall::AccessControlInit => constructor(LibClass::AccessControlException, b"(Ljava/lang/String;)V");
            LibCall::GetMessage => method(LibClass::Thrown(Thrown::Throwable), b"getMessage", b"()Ljava/lang/String;");
            LibCall::String(call) => call.row();
            LibCall::Builder(call) => call.row();
            LibCall::Out => static_field(LibClass::System, b"out", b"Ljava/io/PrintStream;");
            LibCall::PrintEnd => method(LibClass::PrintStream, b"println", b"()V");
            LibCall::Print(piece) => piece.print_row();
            LibCall::Run(Side::Source) => abstract_on(Side::Source, LibClass::Runnable, b"run", b"()V");
            LibCall::Run(Side::Passing) => abstract_on(Side::Passing, LibClass::Runnable, b"run", b"(Lsps/Ctx;)V");
            LibCall::Thread(call) => call.row();
            LibCall::RunAction(Side::Source) => abstract_on(Side::Source, LibClass::PrivilegedAction, b"run", b"()Ljava/lang/Object;");
            LibCall::RunAction(Side::Passing) => abstract_on(Side::Passing, LibClass::PrivilegedAction, b"run", b"(Lsps/Ctx;)Ljava/lang/Object;");
            LibCall::Controller(call) => call.row();
            LibCall::ContextCheck => method(LibClass::AccessControlContext, b"checkPermission", b"(Ljava/security/Permission;)V");
            LibCall::PermissionInit(call) => call.row();
            LibCall::Rt(call) => call.row();
        }
    }

    /// The class that declares it.
    pub fn owner(self) -> LibClass
        ensures { result ≡ LibraryMembers.owner self }
    {
        self.row().owner()
    }

    /// Its name, `<init>` of a constructor.
    pub fn name(self) -> &'static [u8]
        ensures { result.now ≡ LibraryMembers.name_of_call self }
    {
        self.row().name()
    }

    /// Its descriptor (JVMS 4.3).
    pub fn desc(self) -> &'static [u8]
        ensures { result.now ≡ LibraryMembers.desc_of self }
    {
        self.row().desc()
    }

    /// Whether it is the field, `System.out`.
    pub fn is_field(self) -> bool
        ensures { result ≡ LibraryMembers.is_field self }
    {
        matches!(self.row().kind(), MemberKind::StaticField)
    }

    /// Whether it is static.
    pub fn is_static(self) -> bool
        ensures { result ≡ LibraryMembers.is_static self }
    {
        matches!(
            self.row().kind(),
            MemberKind::StaticField | MemberKind::StaticMethod
        )
    }

    /// Whether a side's library has it.
    pub fn stands_on(self, side: Side) -> bool
        ensures { result ≡ LibraryMembers.call_stands_on side self }
    {
        self.row().sides().include(side)
    }

    /// Whether it has this name and descriptor.
    pub fn is_called(self, name: &[u8], desc: &[u8]) -> bool
        ensures { result ≡ LibraryMembers.is_called name.now desc.now self }
    {
        name == self.name() && desc == self.desc()
    }
}
