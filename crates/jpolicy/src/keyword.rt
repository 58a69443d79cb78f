ghost use Rattle.std.specs.Prelude.{◌≡◌};
ghost use Rattle.jpolicy.specs.Productions.{spelling};

/// A keyword of policy files.
#[rattlefmt::skip]
#[derive(Clone, Copy, Debug, PartialEq, Eq)]
pub enum Keyword { Grant, CodeBase, SignedBy, Principal, Permission, Keystore, PasswordUrl }

impl Keyword {
    /// The letters of the keyword.
    pub fn spelling(self) -> &'static [u8]
        ensures { result.now ≡ spelling self }
    {
        match self {
            Keyword::Grant => b"grant",
            Keyword::CodeBase => b"codeBase",
            Keyword::SignedBy => b"signedBy",
            Keyword::Principal => b"principal",
            Keyword::Permission => b"permission",
            Keyword::Keystore => b"keystore",
            Keyword::PasswordUrl => b"keystorePasswordURL",
        }
    }
}
