/// From where a member may be used (JVMS 5.4.4).
#[derive(Clone, Copy, Debug, PartialEq, Eq)]
pub enum Reach {
    Public,
    /// From its package and from the classes below its own.
    Protected,
    /// From its package.
    Package,
    /// From its class.
    Private,
}
