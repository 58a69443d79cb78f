use crate::method::Expand;
use jground::jbase::Seq;

/// A method of `sps/Rt`, which is static.
#[rattlefmt::skip]
#[derive(Clone, Copy, Debug, PartialEq, Eq)]
pub enum Security { Enter, Check, Snapshot, Privileged, PrivilegedWith, PrivilegedLimited }

/// A method's reference: whether its class is an interface, and the indices of its class, its name and its descriptor.
#[rattlefmt::skip]
#[derive(Clone, Copy, Debug, PartialEq, Eq)]
pub struct Reference { pub interface: bool, pub class: u16, pub name: u16, pub descriptor: u16 }

/// The indices that moved code names.
#[derive(Debug, Drop)]
pub struct Named {
    /// The reference that a body begins by calling.
    pub enter: u16,
    /// The expansions, with the indices of the new references.
    pub kinds: Seq<Expand>,
    /// The class of contexts, 0 where there are no frames.
    pub context: u16,
}
