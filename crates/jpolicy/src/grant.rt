use jground::jbase::Seq;
use jground::jtext::Units;

/// A permission entry of a grant, with its properties expanded.
#[derive(Debug, Drop)]
pub struct GrantEntry {
    pub class: Units,
    pub name: Option<Units>,
    pub actions: Option<Units>,
    /// Whether it asks for a signer.
    pub signed: bool,
}

/// A grant of a policy, with its properties expanded. Without a code base it is for all code.
#[derive(Debug, Drop)]
pub struct Grant {
    pub code_base: Option<Units>,
    /// Whether it asks for a signer or a principal.
    pub asks_more: bool,
    pub entries: Seq<GrantEntry>,
}

/// The grants of a policy, in order.
pub type Policy = Seq<Grant>;
