ghost use Rattle.jlibcalls.specs.jlibrary.HeldPermissionLaws.{HeldByNumber, HeldWithin, MadeStaysHeld, RowsStayHeld};

use jruntime::jstate::heap_laws;

/// The laws of permissions that objects hold: a row that did what the machine's definition says names none that isn't there, and so does an
/// object that is made; and what that is by numbers. It does nothing; its contract is the laws.
pub fn held_laws<M>()
    ensures rows { RowsStayHeld M }
    ensures made { MadeStaysHeld }
    ensures number { HeldByNumber }
    ensures within { HeldWithin }
{
    heap_laws();
}
