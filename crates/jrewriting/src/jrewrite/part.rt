use jclass::ClassParts;
use jmoveclass::Limit;

/// A moved class, with the number of its domain.
#[derive(Debug, Drop)]
pub struct MovedPart {
    pub domain: u32,
    pub class: ClassParts,
}

/// A limit that a class breaks, with the place of the class among the parts.
#[rattlefmt::skip]
#[derive(Clone, Copy, Debug, PartialEq, Eq)]
pub struct Place { pub class: u32, pub limit: Limit }
