use jclass::ClassParts;
use jresolution::jprogram::NamedProgram;
use jresolution::juses::Uses;

/// A class of a program that is to be moved.
#[derive(Clone, Copy)]
pub struct Moving<'a> {
    pub program: &'a NamedProgram,
    /// What the entries of the program's pools stand for.
    pub uses: &'a Uses,
    /// The class's place among the parts, and its domain.
    pub place: u32,
    pub domain: u32,
    pub class: &'a ClassParts,
}
