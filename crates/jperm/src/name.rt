ghost use Rattle.std.specs.Prelude.{◌≡◌, ◌≤◌, IsTrue, length};
ghost use Rattle.jperm.specs.NameCoverage.{name_covers, is_wildcard};

pub const DOT: u16 = b'.' as u16;

const STAR: u16 = b'*' as u16;

/// Whether a name covers the asked one.
pub fn name_covers(name: &[u16], asked: &[u16]) -> bool
    ensures { result ≡ name_covers name.now asked.now }
{
    if name == asked {
        true
    } else if is_wildcard(name) {
        let start = &name[..name.len() - 1];
        asked.starts_with(start) && start.len() < asked.len()
    } else {
        false
    }
}

/// Whether a name is `*` or ends in `.*`.
pub fn is_wildcard(name: &[u16]) -> bool
    ensures value { result ≡ is_wildcard name.now }
    ensures filled { IsTrue result → 1 ≤ length name.now }
{
    name == [STAR].as_slice() || name.ends_with(&[DOT, STAR])
}
