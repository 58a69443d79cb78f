ghost use Rattle.std.specs.Prelude.{◌≡◌};
ghost use Rattle.jlib.specs.LibraryMembers.{member_among, member_named, members};
ghost use Rattle.jlib.specs.LibraryClasses.{name_of};
ghost use Rattle.jlib.specs.declared.classes.LibClass.TheVariants as classes;

use crate::calls::{
    BuilderCall, ControllerCall, LibCall, PermissionInit, PrintedType, RtCall, StringCall,
    ThreadCall, ThrownInit,
};
use crate::classes::{LibClass, PermissionClass, Thrown};
use crate::lookup::class;
use crate::side::Side;

const OBJECT: [LibCall; 1] = [LibCall::ObjectInit];

const ACCESS_CONTROL: [LibCall; 1] = [LibCall::AccessControlInit];

const STRING: [LibCall; 4] = [
    LibCall::String(StringCall::Length),
    LibCall::String(StringCall::CharAt),
    LibCall::String(StringCall::Equals),
    LibCall::String(StringCall::Concat),
];

const BUILDER: [LibCall; 8] = [
    LibCall::Builder(BuilderCall::Init),
    LibCall::Builder(BuilderCall::InitText),
    LibCall::Builder(BuilderCall::Append(PrintedType::Int)),
    LibCall::Builder(BuilderCall::Append(PrintedType::Long)),
    LibCall::Builder(BuilderCall::Append(PrintedType::Char)),
    LibCall::Builder(BuilderCall::Append(PrintedType::Bool)),
    LibCall::Builder(BuilderCall::Append(PrintedType::Text)),
    LibCall::Builder(BuilderCall::ToString),
];

const SYSTEM: [LibCall; 1] = [LibCall::Out];

const PRINT_STREAM: [LibCall; 6] = [
    LibCall::PrintEnd,
    LibCall::Print(PrintedType::Int),
    LibCall::Print(PrintedType::Long),
    LibCall::Print(PrintedType::Char),
    LibCall::Print(PrintedType::Bool),
    LibCall::Print(PrintedType::Text),
];

const RUNNABLE: [LibCall; 2] = [LibCall::Run(Side::Source), LibCall::Run(Side::Passing)];

const THREAD: [LibCall; 5] = [
    LibCall::Thread(ThreadCall::Init(Side::Source)),
    LibCall::Thread(ThreadCall::Init(Side::Passing)),
    LibCall::Thread(ThreadCall::Start),
    LibCall::Thread(ThreadCall::Join),
    LibCall::Thread(ThreadCall::Yield),
];

const ACTION: [LibCall; 2] = [
    LibCall::RunAction(Side::Source),
    LibCall::RunAction(Side::Passing),
];

const CONTROLLER: [LibCall; 5] = [
    LibCall::Controller(ControllerCall::Check),
    LibCall::Controller(ControllerCall::Snapshot),
    LibCall::Controller(ControllerCall::Privileged),
    LibCall::Controller(ControllerCall::PrivilegedWith),
    LibCall::Controller(ControllerCall::PrivilegedLimited),
];

const CONTEXT: [LibCall; 1] = [LibCall::ContextCheck];

const ALL_PERMISSION: [LibCall; 1] = [LibCall::PermissionInit(PermissionInit::All)];

const RUNTIME_PERMISSION: [LibCall; 2] = [
    LibCall::PermissionInit(PermissionInit::Runtime),
    LibCall::PermissionInit(PermissionInit::RuntimeActions),
];

const SECURITY_PERMISSION: [LibCall; 2] = [
    LibCall::PermissionInit(PermissionInit::Security),
    LibCall::PermissionInit(PermissionInit::SecurityActions),
];

const PROPERTY_PERMISSION: [LibCall; 1] = [LibCall::PermissionInit(PermissionInit::Property)];

const FILE_PERMISSION: [LibCall; 1] = [LibCall::PermissionInit(PermissionInit::File)];

const RT: [LibCall; 6] = [
    LibCall::Rt(RtCall::Enter),
    LibCall::Rt(RtCall::Check),
    LibCall::Rt(RtCall::Snapshot),
    LibCall::Rt(RtCall::Privileged),
    LibCall::Rt(RtCall::PrivilegedWith),
    LibCall::Rt(RtCall::PrivilegedLimited),
];

fn member_among(side: Side, name: &[u8], desc: &[u8], calls: &[LibCall]) -> Option<LibCall>
    ensures { result ≡ member_among side name.now desc.now calls.now }
{
    calls
        .iter()
        .copied()
        .find(|call| call.stands_on(side) && call.is_called(name, desc))
}

fn thrown_member(side: Side, thrown: Thrown, name: &[u8], desc: &[u8]) -> Option<LibCall>
    ensures { result ≡ member_among side name.now desc.now (members (LibClass.Thrown thrown)) }
{
    let message = LibCall::ThrownInit(thrown, ThrownInit::Message);
    let nothing = LibCall::ThrownInit(thrown, ThrownInit::Nothing);
    match thrown {
        Thrown::Throwable => {
            member_among(side, name, desc, &[message, nothing, LibCall::GetMessage])
        }
        _ => member_among(side, name, desc, &[message, nothing]),
    }
}

/// The constructors of a class of permissions.
fn permission_members(class: PermissionClass) -> &'static [LibCall]
    ensures { result.now ≡ members (classes.Permission class) }
{
    match class {
        PermissionClass::Permission => &[],
        PermissionClass::BasicPermission => &[],
        PermissionClass::AllPermission => &ALL_PERMISSION,
        PermissionClass::RuntimePermission => &RUNTIME_PERMISSION,
        PermissionClass::SecurityPermission => &SECURITY_PERMISSION,
        PermissionClass::PropertyPermission => &PROPERTY_PERMISSION,
        PermissionClass::FilePermission => &FILE_PERMISSION,
    }
}

fn member_of(side: Side, owner: LibClass, name: &[u8], desc: &[u8]) -> Option<LibCall>
    ensures { result ≡ member_among side name.now desc.now (members owner) }
{
    match owner {
        LibClass::Object => member_among(side, name, desc, &OBJECT),
        LibClass::Thrown(thrown) => thrown_member(side, thrown, name, desc),
        LibClass::AccessControlException => member_among(side, name, desc, &ACCESS_CONTROL),
        LibClass::String => member_among(side, name, desc, &STRING),
        LibClass::StringBuilder => member_among(side, name, desc, &BUILDER),
        LibClass::System => member_among(side, name, desc, &SYSTEM),
        LibClass::PrintStream => member_among(side, name, desc, &PRINT_STREAM),
        LibClass::Runnable => member_among(side, name, desc, &RUNNABLE),
        LibClass::Thread => member_among(side, name, desc, &THREAD),
        LibClass::PrivilegedAction => member_among(side, name, desc, &ACTION),
        LibClass::AccessController => member_among(side, name, desc, &CONTROLLER),
        LibClass::AccessControlContext => member_among(side, name, desc, &CONTEXT),
        LibClass::Permission(class) => { member_among(side, name, desc, permission_members(class)) }
        LibClass::Rt => member_among(side, name, desc, &RT),
        LibClass::Void => None,
        LibClass::Cloneable => None,
        LibClass::Serializable => None,
        LibClass::Ctx => None,
    }
}

/// The member that a class of the library declares itself on a side, by its name and descriptor: what `member` finds by the name
/// of this class.
#[tactic(auto, using(crate::proofs::NamePrefixes::by_class))]
pub fn member_in(side: Side, owner: LibClass, name: &[u8], desc: &[u8]) -> Option<LibCall>
    ensures { result ≡ member_named side (name_of owner) name.now desc.now }
{
    member_of(side, owner, name, desc)
}

/// The member that a class of a side's library declares itself: a method, a constructor (`<init>`) or a field, by the names and
/// the descriptor that a class file has (JVMS 4.2, 4.3). None exactly where the side has no such class, or the class no such
/// member; inherited members are none of the class's own.
pub fn member(side: Side, owner: &[u8], name: &[u8], desc: &[u8]) -> Option<LibCall>
    ensures { result ≡ member_named side owner.now name.now desc.now }
{
    let owner = class(side, owner)?;
    member_of(side, owner, name, desc)
}
