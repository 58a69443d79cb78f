ghost use Rattle.std.specs.Prelude.{◌≡◌, IsTrue};

/// What a frame carries: its domain, and the number of its privilege, if it is privileged.
#[derive(Clone, Copy, Debug)]
pub struct InspectMark {
    pub domain: u32,
    pub privileged: Option<u64>,
}

impl InspectMark {
    /// Whether another mark is the same.
    pub(crate) fn is(&self, other: &InspectMark) -> bool
        ensures { IsTrue result → self.now ≡ other.now }
    {
        is_same(self.privileged, other.privileged) && self.domain == other.domain
    }
}

/// Whether two numbers, where there are any, are the same.
pub(crate) fn is_same(one: Option<u64>, other: Option<u64>) -> bool
    ensures { IsTrue result → one ≡ other }
{
    match (one, other) {
        (None, None) => true,
        (Some(one), Some(other)) => one == other,
        _ => false,
    }
}
