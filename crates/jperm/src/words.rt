//! The fixed texts of permissions, as units.

macro_rules! units {
    ($($unit:literal)*) => { [$($unit as u16),*] };
}

pub const ALL_FILES: [u16; 13] =
    units!(b'<' b'<' b'A' b'L' b'L' b' ' b'F' b'I' b'L' b'E' b'S' b'>' b'>');

pub const ALL_PERMISSION: [u16; 27] =
    units!(b'j' b'a' b'v' b'a' b'.' b's' b'e' b'c' b'u' b'r' b'i' b't' b'y' b'.' b'A' b'l' b'l' b'P' b'e' b'r' b'm' b'i' b's' b's' b'i' b'o' b'n');

pub const RUNTIME_PERMISSION: [u16; 27] =
    units!(b'j' b'a' b'v' b'a' b'.' b'l' b'a' b'n' b'g' b'.' b'R' b'u' b'n' b't' b'i' b'm' b'e' b'P' b'e' b'r' b'm' b'i' b's' b's' b'i' b'o' b'n');

pub const SECURITY_PERMISSION: [u16; 32] =
    units!(b'j' b'a' b'v' b'a' b'.' b's' b'e' b'c' b'u' b'r' b'i' b't' b'y' b'.' b'S' b'e' b'c' b'u' b'r' b'i' b't' b'y' b'P' b'e' b'r' b'm' b'i' b's' b's' b'i' b'o' b'n');

pub const PROPERTY_PERMISSION: [u16; 28] =
    units!(b'j' b'a' b'v' b'a' b'.' b'u' b't' b'i' b'l' b'.' b'P' b'r' b'o' b'p' b'e' b'r' b't' b'y' b'P' b'e' b'r' b'm' b'i' b's' b's' b'i' b'o' b'n');

pub const FILE_PERMISSION: [u16; 22] =
    units!(b'j' b'a' b'v' b'a' b'.' b'i' b'o' b'.' b'F' b'i' b'l' b'e' b'P' b'e' b'r' b'm' b'i' b's' b's' b'i' b'o' b'n');

pub const ALL_PERMISSIONS: [u16; 17] =
    units!(b'<' b'a' b'l' b'l' b' ' b'p' b'e' b'r' b'm' b'i' b's' b's' b'i' b'o' b'n' b's' b'>');

pub const ALL_ACTIONS: [u16; 13] =
    units!(b'<' b'a' b'l' b'l' b' ' b'a' b'c' b't' b'i' b'o' b'n' b's' b'>');

pub const OPEN: [u16; 2] = units!(b'(' b'"');

pub const BETWEEN: [u16; 3] = units!(b'"' b' ' b'"');

pub const CLOSE: [u16; 2] = units!(b'"' b')');

/// Each word behind the comma that parts it from an earlier one.
pub const COMMA_READ: [u16; 5] = units!(b',' b'r' b'e' b'a' b'd');

pub const COMMA_WRITE: [u16; 6] = units!(b',' b'w' b'r' b'i' b't' b'e');

pub const COMMA_EXECUTE: [u16; 8] = units!(b',' b'e' b'x' b'e' b'c' b'u' b't' b'e');

pub const COMMA_DELETE: [u16; 7] = units!(b',' b'd' b'e' b'l' b'e' b't' b'e');

pub const COMMA_READLINK: [u16; 9] = units!(b',' b'r' b'e' b'a' b'd' b'l' b'i' b'n' b'k');
