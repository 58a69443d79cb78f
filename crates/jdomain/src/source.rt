ghost use Rattle.std.specs.Prelude.{◌≡◌, IfOk, IsAscii, IsTrue};
ghost use Rattle.url.specs.Parts.{serialize};
ghost use Rattle.jdomain.specs.CodeSources.{SourceGives, is_in, matches, source_of};
ghost use Rattle.jdomain.specs.ProofNames.{ends_in_slash};

use crate::code::{Code, ends_in_slash, stands_for, url_of};
use crate::fault::SourceError;
use jpolicy::Grant;
use std::alloc::{AllocError, Global};
use std::marker::Model;
use url::Url;

/// A code source: the URL of a directory, which its classes come from.
#[derive(Drop)]
pub struct CodeSource {
    url: Url,
}

impl Model for CodeSource {
    ghost use Rattle.std.specs.Prelude.{IsTrue};
    ghost use Rattle.url.specs.Parts.{Parts, parts_code};

    ghost Value = { Parts };

    ghost coded = { parts_code };

    ghost use Rattle.jdomain.specs.ProofNames.{ends_in_slash};

    ghost view = { λ s. s.url };

    ghost invariant = { λ s. IsTrue (ends_in_slash s.url.path) };
}

impl CodeSource {
    /// The code source that a text is: a URL of at most `MOST_URL` bytes whose path ends in `/`.
    #[tactic(auto, unfolding(crate::specs::CodeSources::source_of))]
    pub fn read(alloc: Global, text: &str) -> Result<CodeSource, SourceError>
        ensures { SourceGives result (source_of text.now) }
    {
        let Some(url) = url_of(alloc, text)? else {
            return Err(SourceError::NotUrl);
        };
        if !ends_in_slash(url.path().as_bytes()) {
            return Err(SourceError::NotDirectory);
        }
        Ok(CodeSource { url })
    }

    /// The URL as the URL Standard writes it.
    pub fn text(&self) -> &str
        ensures value { result.now ≡ serialize self.now }
        ensures ascii { IsAscii result.now }
        ensures directory { IsTrue (ends_in_slash self.now.path) }
    {
        self.url.as_str()
    }

    /// Whether a grant is for the code of this source.
    pub fn matches(&self, alloc: Global, grant: &Grant) -> Result<bool, AllocError>
        ensures { IfOk result (λ yes. yes ≡ matches grant.now self.now) }
    {
        let code = Code::of(alloc, grant)?;
        Ok(self.is_in(&code))
    }

    /// Whether some code is that of this source.
    pub(crate) fn is_in(&self, code: &Code) -> bool
        ensures { result ≡ is_in code.now self.now }
    {
        match code {
            Code::All => true,
            Code::Nothing => false,
            Code::Under(base) => stands_for(base, &self.url),
        }
    }
}
