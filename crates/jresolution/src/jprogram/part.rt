use jclass::ClassFile;
use jlib::LibClass;

/// A class of a program, with the number of its domain.
#[rattlefmt::skip]
#[derive(Debug, Drop)]
pub struct CodePart { pub domain: u32, pub class: ClassFile }

/// A class by number: a user's by its place among the parts, or one of the library.
#[rattlefmt::skip]
#[derive(Clone, Copy, Debug, PartialEq, Eq)]
pub enum ClassRef { User(u32), Lib(LibClass) }
