ghost use Rattle.std.specs.Prelude.{◌≡◌, ◌&&◌, ◌||◌, ◌==◌, IsTrue, option_map, nat_le, nat_lt};
ghost use Rattle.jground.specs.jtext.Modified;
ghost use Rattle.jground.specs.jtext.Modified.{three_at, two_at, unit_at};
ghost use Rattle.jclass.specs.PoolChecks;
ghost use Rattle.jclass.specs.PoolChecks.{behind};

fn goes_on(b: u8) -> bool
    ensures { result ≡ Modified.goes_on b }
{
    0x80 <= b && b < 0xc0
}

fn begins_two(a: u8) -> bool
    ensures { result ≡ (nat_le 0xc0 a && nat_lt a 0xe0) }
{
    0xc0 <= a && a < 0xe0
}

fn begins_three(a: u8) -> bool
    ensures { result ≡ (nat_le 0xe0 a && nat_lt a 0xf0) }
{
    0xe0 <= a && a < 0xf0
}

fn is_shortest_of_two(a: u8, b: u8) -> bool
    requires first { IsTrue (nat_le 0xc0 a && nat_lt a 0xe0) }
    requires second { IsTrue (Modified.goes_on b) }
    ensures { result ≡ (Modified.two a b == 0 || nat_le 0x80 (Modified.two a b)) }
{
    let unit = (u16::from(a) - 0xc0) * 0x40 + (u16::from(b) - 0x80);
    unit == 0 || 0x80 <= unit
}

fn is_shortest_of_three(a: u8, b: u8, c: u8) -> bool
    requires first { IsTrue (nat_le 0xe0 a && nat_lt a 0xf0) }
    requires second { IsTrue (Modified.goes_on b) }
    requires third { IsTrue (Modified.goes_on c) }
    ensures { result ≡ nat_le 0x800 (Modified.three a b c) }
{
    let unit = (u16::from(a) - 0xe0) * 0x1000
        + (u16::from(b) - 0x80) * 0x40
        + (u16::from(c) - 0x80);
    0x800 <= unit
}

fn behind_two<'a>(bytes: &[u8], a: u8, rest: &'a [u8]) -> Option<&'a [u8]>
    requires { IsTrue (nat_le 0xc0 a && nat_lt a 0xe0) }
    ensures { option_map (λ t. t.now) result ≡ behind (two_at bytes.now a rest.now) }
{
    // What the proof needs: the bytes of the group.
    let _whole = bytes;
    match rest {
        [] => None,
        [b, after @ ..] => {
            if !goes_on(*b) {
                return None;
            }
            if is_shortest_of_two(a, *b) {
                return Some(after);
            }
            None
        }
    }
}

fn behind_three<'a>(bytes: &[u8], a: u8, rest: &'a [u8]) -> Option<&'a [u8]>
    requires { IsTrue (nat_le 0xe0 a && nat_lt a 0xf0) }
    ensures { option_map (λ t. t.now) result ≡ behind (three_at bytes.now a rest.now) }
{
    // What the proof needs: the bytes of the group.
    let _whole = bytes;
    match rest {
        [] | [_] => None,
        [b, c, after @ ..] => {
            if !goes_on(*b) {
                return None;
            }
            if !goes_on(*c) {
                return None;
            }
            if is_shortest_of_three(a, *b, *c) {
                return Some(after);
            }
            None
        }
    }
}

/// What lies behind the group of bytes of one unit (JVMS 4.4.7).
fn behind_unit(bytes: &[u8]) -> Option<&[u8]>
    ensures { option_map (λ t. t.now) result ≡ behind (unit_at bytes.now) }
{
    match bytes {
        [] => None,
        [a, rest @ ..] => {
            if 0 < *a && *a < 0x80 {
                return Some(rest);
            }
            if begins_two(*a) {
                return behind_two(bytes, *a, rest);
            }
            if begins_three(*a) {
                return behind_three(bytes, *a, rest);
            }
            None
        }
    }
}

/// Whether bytes are a text in modified UTF-8 (JVMS 4.4.7). It takes no memory.
pub fn is_modified(bytes: &[u8]) -> bool
    ensures { result ≡ PoolChecks.is_modified bytes.now }
{
    let mut rest = bytes;
    for _ in 0..bytes.len() {
        if rest.is_empty() {
            return true;
        }
        let Some(after) = behind_unit(rest) else {
            return false;
        };
        rest = after;
    }
    rest.is_empty()
}
