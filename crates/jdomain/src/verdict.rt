/// What a walk of a stack answers.
#[derive(Clone, Copy, Debug, PartialEq, Eq)]
pub enum Verdict {
    Granted,
    /// Denied by this domain.
    Denied(u32),
}
