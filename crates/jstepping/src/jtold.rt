//! Which objects of the machine's heap may be told a message: a law over jlink, jobjs and jtexts, without code.
//!
//! - `MessageConstructors`: which calls of the library give a message, and what is said of their objects.
//!
//! Proved: `told_law`: in a program that links and whose parts are class files, where the operands of a call serve that comes to a
//! constructor of what can be thrown, its object has a place for a message, so that jtexts' constructors may be called.

ghost use Rattle.jstepping.specs.jtold.MessageConstructors.{TellsWhatMay};

use jlinking::jlink::{call_law, name_law, selection_law};
use jruntime::jstate::heap_laws;

/// The law of objects that are told a message, in a program that links: where the operands of a call serve that comes to a constructor of
/// what can be thrown, its object is one of a class below the constructor's, so that it has a place for the message (JVMS 6.5:
/// invokespecial). It has no body to run; its contract is the law.
pub fn told_law()
    ensures { TellsWhatMay }
{
    call_law();
    name_law();
    selection_law();
    heap_laws();
}
