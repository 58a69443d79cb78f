ghost use Rattle.std.specs.Prelude.{⊤, ◌≡◌, [], ◌∷◌, codes};

use bitflags::{Flag, Flags, bitflag_items};

/// Access flags of a class, a field or a method (JVMS 4.1, 4.5, 4.6). Bits without a name are kept.
#[derive(Clone, Copy, PartialEq, Eq, Debug)]
pub struct Access(u16);

bitflag_items! {
    impl Access: u16 {
        const PUBLIC = 0x0001;
        const PRIVATE = 0x0002;
        const PROTECTED = 0x0004;
        const STATIC = 0x0008;
        const FINAL = 0x0010;
        const SYNCHRONIZED = 0x0020;
        const VOLATILE = 0x0040;
        const TRANSIENT = 0x0080;
        const NATIVE = 0x0100;
        const INTERFACE = 0x0200;
        const ABSTRACT = 0x0400;
        const STRICT = 0x0800;
        const SYNTHETIC = 0x1000;
        const ANNOTATION = 0x2000;
        const ENUM = 0x4000;
    }
}

impl Flags for Access {
    type Bits = u16;

    ghost exact = { ⊤ };

    ghost table = { (codes "PUBLIC", 0x1) ∷ (codes "PRIVATE", 0x2) ∷ (codes "PROTECTED", 0x4) ∷ (codes "STATIC", 0x8) ∷ (codes "FINAL", 0x10) ∷
        (codes "SYNCHRONIZED", 0x20) ∷ (codes "VOLATILE", 0x40) ∷ (codes "TRANSIENT", 0x80) ∷ (codes "NATIVE", 0x100) ∷
        (codes "INTERFACE", 0x200) ∷ (codes "ABSTRACT", 0x400) ∷ (codes "STRICT", 0x800) ∷ (codes "SYNTHETIC", 0x1000) ∷
        (codes "ANNOTATION", 0x2000) ∷ (codes "ENUM", 0x4000) ∷ [] };

    ghost set_of = { λ a. a.0 };

    fn flags<'a>() -> &'a [Flag<Access>] {
        Access::FLAGS
    }

    fn bits(&self) -> u16 {
        self.0
    }

    fn from_bits_retain(bits: u16) -> Access {
        Access(bits)
    }
}
