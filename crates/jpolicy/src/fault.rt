ghost use Rattle.std.specs.Prelude.{◌≡◌};
ghost use Rattle.jpolicy.specs.Productions.{fault_at};

use crate::token::Placed;
use jground::jbase::FaultOrMemory;
use jground::jformat::{At, Fault, ReadError};

/// What is wrong with a policy file.
#[derive(Clone, Copy, Debug, PartialEq, Eq)]
pub enum PolicyFault {
    /// No character's bytes stand there.
    NotUtf8,
    /// The token isn't allowed there, or is none.
    Syntax,
    /// The string that begins there has `${{`.
    SelfExpansion,
}

/// Why bytes gave no policy: a fault at the offset of a byte, the first one of the file, or want of memory, which may come at any time.
pub type PolicyError = FaultOrMemory<At<PolicyFault>>;

/// A fault of the next token, or of the end of the text where none is left.
pub fn fault(kind: PolicyFault, tokens: &[Placed]) -> ReadError<PolicyFault>
    ensures { result ≡ FaultOrMemory.Fault (fault_at kind tokens.now) }
{
    let left = match tokens {
        [] => 0,
        [token, ..] => token.left,
    };
    FaultOrMemory::Fault(Fault { left, kind })
}
