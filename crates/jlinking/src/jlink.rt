//! Programs that link: a type that only linking makes.
//!
//! - `ClassOrder`: the classes of a program that links stand in order.
//! - `NamedFields`: what linking says of a field that an instruction names.
//! - `LinkedPrograms`: the first broken rule, the four phases one after the other; what may be linked.
//! - `CodeReferences`: the references that an instruction names.
//! - `SelectedMethods`: what a selected method is called.
//! - `ProgramFiles`, `SoundDescriptors`: what instructions stand on, parts that are class files among it, and descriptors without float and double.
//! - `NamedCalls`: what linking says of a call that an instruction names.
//!
//! Proved: `link` and `link_or_return` answer the program exactly where no rule is broken, and else the first broken rule with class,
//! member and kind, the latter with the parts handed back; a linked program is an `Ancestry`, `resolve` is resolution where an
//! instruction names the reference, and then there is a member; `implements`, `implements_at`, `select`, `main_of` are their definitions;
//! `is_known` holds of the numbers of the program's classes alone, so that what is asked by number needs no look at names. `link_known`
//! makes the program of parts that are known to link, and tests nothing. `selection_law`: what is selected has the name and the
//! descriptor of what was called. `instruction_laws`: in a program that links and whose parts are class files each instruction has a
//! meaning, and leads to instructions of its method. `call_law`: no instruction but one that calls a constructor names one, and one of
//! the library's is that of the class by which it is named. `name_law`: no class file's class has the empty name. `are_files`: the parts
//! of a linked program are class files.

mod ancestry;
mod error;
mod files;
mod laws;
mod linked;
mod numbers;
mod phases;

pub use error::LinkError;
pub use files::are_files;
pub use laws::{call_law, field_law, instruction_laws, name_law, selection_law};
pub use linked::{LinkedProgram, are_parts, link, link_known, link_or_return};
