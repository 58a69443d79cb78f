ghost use Rattle.std.specs.Prelude.{Bool, ℕ};
ghost use Rattle.jperm.specs.declared.permission.Permission.{Permission};
ghost use Rattle.jlib.specs.declared.calls.BuilderCall.{BuilderCall};
ghost use Rattle.jlib.specs.declared.calls.ControllerCall.{ControllerCall};
ghost use Rattle.jlib.specs.declared.calls.LibCall.{LibCall};
ghost use Rattle.jlib.specs.declared.calls.LibCall.TheVariants as calls;
ghost use Rattle.jlib.specs.declared.calls.PermissionInit.{PermissionInit};
ghost use Rattle.jlib.specs.declared.calls.PrintedType.{PrintedType};
ghost use Rattle.jlib.specs.declared.calls.RtCall.{RtCall};
ghost use Rattle.jlib.specs.declared.calls.StringCall.{StringCall};
ghost use Rattle.jlib.specs.declared.calls.ThreadCall.{ThreadCall};
ghost use Rattle.jlib.specs.declared.calls.ThrownInit.{ThrownInit};
ghost use Rattle.jlib.specs.declared.classes.Thrown.{Thrown};
ghost use Rattle.jsemantics.specs.jmachine.PrivilegeActions.{run_action};
ghost use Rattle.jsemantics.specs.jrules.InspectingRules as inspecting;
ghost use Rattle.jsemantics.specs.jrules.PlainRules as plain;
ghost use Rattle.jsoundness_laws.specs.library.YieldLaws.{ActionSays, AreSided, CallYields, InitsYield, InterfaceRaises, RunIsUsers, RunSays, RunsYield, run_call};

/// The laws of the calls of String, StringBuilder and PrintStream: each has a row, and what it gives is of the type that it returns. It has
/// no body to run; its contract is the laws.
pub fn text_laws<K, E>()
    ensures string { (call : StringCall) → CallYields K E (calls.String call) }
    ensures builder { (call : BuilderCall) → CallYields K E (calls.Builder call) }
    ensures print { (piece : PrintedType) → CallYields K E (calls.Print piece) }
    ensures print_end { CallYields K E calls.PrintEnd }
{}

/// The same laws of the constructors of Object and of what can be thrown, behind which the object may be used, and of getMessage. It has no
/// body to run; its contract is the laws.
pub fn throwable_laws<K, E>()
    ensures object { CallYields K E calls.ObjectInit }
    ensures thrown { (class : Thrown) (way : ThrownInit) → CallYields K E (calls.ThrownInit class way) }
    ensures access_control { CallYields K E calls.AccessControlInit }
    ensures message { CallYields K E calls.GetMessage }
{}

/// The same law of the constructors of permissions: each makes the permission or raises an exception. It has no body to run; its contract is
/// the law.
pub fn permission_law<K, E>()
    ensures { (call : PermissionInit) → CallYields K E (calls.PermissionInit call) }
{}

/// The same law of the calls of Thread: there are as many threads behind it, or one more, whose Runnable is one. It has no body to run; its
/// contract is the law.
pub fn thread_law<K, E>()
    ensures { (call : ThreadCall) → CallYields K E (calls.Thread call) }
{}

/// The same laws of the calls that ask access control, on either side: checks raise or go on, what getContext gives is a context that may be
/// used, and doPrivileged pushes `run` of the action, with a context exactly on the passing side. It has no body to run; its contract is the
/// laws.
pub fn security_laws<K, E>()
    ensures controller { (call : ControllerCall) → CallYields K E (calls.Controller call) }
    ensures context { CallYields K E calls.ContextCheck }
    ensures rt { (call : RtCall) → CallYields K E (calls.Rt call) }
{}

/// The laws of `run`, of an action and of a Runnable. No member of the library does it, so that a frame is pushed or an exception comes that
/// can be thrown; and their descriptors say that they are given a context exactly on the passing side. It has no body to run; its contract is
/// the laws.
pub fn run_laws<K>()
    ensures action { RunIsUsers K run_action }
    ensures thread { RunIsUsers K run_call }
    ensures raises { InterfaceRaises K }
    ensures thread_says { RunSays }
    ensures action_says { ActionSays }
{}

/// The law of all members of the library that have code: a call with values of its descriptor's types, on an object of its class, has a row,
/// and what that gives is of the type that it returns, in a typed store behind. It has no body to run; its contract is the law.
pub fn library_law<K, E>()
    ensures { (call : LibCall) → CallYields K E call }
{}

/// The same law where an instruction's call comes to the library: with values that the member may be given, and for an `<init>` with an object that
/// may hold nothing yet. It has no body to run; its contract is the laws.
pub fn coming_laws<K, E>()
    ensures runs { RunsYield K E }
    ensures inits { InitsYield K E }
{}

/// The laws of the rules of both machines: they hand contexts over on the passing side alone, and always there. It has no body to run; its
/// contract is the laws.
pub fn rules_laws()
    ensures inspecting { (has : ℕ → Permission → Bool) → AreSided (inspecting.rules has) }
    ensures plain { (has : ℕ → Permission → Bool) → AreSided (plain.rules has) }
{}
