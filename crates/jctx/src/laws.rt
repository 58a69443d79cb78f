ghost use Rattle.jctx.specs.ContextLaws.{AlongIsKept, DecidesAsTheWalk, DomainsDiffer, EnterSame, EnteredIsKept, IsSmall, PrivilegedIsKept, PrivilegedSame};

use jperm::permission_laws;

/// The laws of security contexts. The context of a stack decides as the walk of the stack does. In a context that `enter` or
/// `privileged` makes, or that is of a stack, no item is covered by an earlier one; where such a context has no limits, its domains
/// differ, so that it has no more items than there are domains; and a call within its newest domain changes nothing. A privilege that
/// a method takes in the context that it entered is one in the context in which it was called.
pub fn context_laws()
    ensures decides { DecidesAsTheWalk }
    ensures entered { EnteredIsKept }
    ensures privileged { PrivilegedIsKept }
    ensures along { AlongIsKept }
    ensures differ { DomainsDiffer }
    ensures small { IsSmall }
    ensures same { EnterSame }
    ensures behind { PrivilegedSame }
{
    permission_laws();
}
