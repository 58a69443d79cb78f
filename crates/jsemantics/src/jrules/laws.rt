ghost use Rattle.jsemantics.specs.jrules.RuleCorrespondence.{BeginsAlike, CallsAlike, ChecksAlike, HeldChecksAlike, KeepsAlike, PrivilegesAlike};

use jctx::context_laws;

/// The laws that join the two machines' answers. Where the context of the running method is that of the thread's stack, both decide each check
/// alike, the denying domain included, and keep what corresponds; and the context is that of the stack again behind a call, at the beginning
/// of a thread, and within a privilege. It has no body to run but the laws that it stands on; its contract is the laws.
pub fn answer_laws()
    ensures checks { ChecksAlike }
    ensures held { HeldChecksAlike }
    ensures keeps { KeepsAlike }
    ensures calls { CallsAlike }
    ensures begins { BeginsAlike }
    ensures privileges { PrivilegesAlike }
{
    context_laws();
}
