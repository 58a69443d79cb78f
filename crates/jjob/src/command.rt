ghost use Rattle.std.specs.Prelude.{◌≡◌};
ghost use Rattle.jjob.specs.declared.command.WordsError.TheVariants.{Memory};

use crate::text::Text;
use std::alloc::AllocError;
use thiserror::Error;

/// What is done with the code of a job, or against which library it is checked.
#[rattlefmt::skip]
#[derive(Clone, Copy, Debug, PartialEq, Eq)]
pub enum Form { Inspect, Pass, Plain }

/// What the words of a command line ask for. A job and an output are named by their paths.
#[derive(Debug, Drop)]
pub enum Command {
    /// A job is run in a form.
    Run { form: Form, job: Text },
    /// The code of a job is checked.
    Check { form: Form, job: Text },
    /// The code of a job is rewritten, and stored below a folder, whose path isn't empty.
    Rewrite { job: Text, to: Text },
    /// What the policy of a job grants is written.
    Policy { job: Text },
    /// A program is made of a seed and a size.
    Gen { seed: u64, size: u32 },
}

/// Why words are no command.
#[derive(Debug, Drop, Error)]
pub enum WordsError {
    /// The words are none of the program's.
    #[error("the words are no command")]
    Usage,
    /// No memory was left. It may come at any time.
    #[error("no memory was left")]
    Memory,
}

impl From<AllocError> for WordsError {
    ghost from_gives = { λ _ e. e ≡ Memory };

    fn from(_: AllocError) -> WordsError {
        WordsError::Memory
    }
}
