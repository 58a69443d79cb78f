use jclass::ClassFault;
use jground::jtext::Units;
use jjob::Text;
use jmoveclass::RewriteKind;
use jpolicy::PolicyFault;
use jresolution::jprogram::LinkKind;

/// What is refused.
#[rattlefmt::skip]
#[derive(Debug, Drop)]
pub enum Refusal {
    /// A line of the job is bad. Lines are counted from 1.
    BadJob { line: u32 },
    /// The policy's text has a fault at this byte.
    BadPolicy { at: u32, kind: PolicyFault },
    /// The class file at a path has a fault at this byte.
    BadClass { path: Text, at: u32, kind: ClassFault },
    /// The classes don't link: a class breaks a rule first, by a member of it (its name and descriptor) or else by itself.
    BadLink { class: Units, member: Option<Units>, kind: LinkKind },
    /// The classes link and aren't well typed: the first place where they aren't is this byte of this method (its name and descriptor).
    BadCheck { class: Units, member: Units, at: u32 },
    /// The program can't be moved: a class breaks a limit first, by a method of it (its name and descriptor) or else by its pool.
    BadRewrite { class: Units, member: Option<Units>, kind: RewriteKind },
    /// There is no class of this name with a `main`.
    NoMain(Units),
}
