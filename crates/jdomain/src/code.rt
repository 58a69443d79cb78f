ghost use Rattle.std.specs.Prelude.{◌≡◌, ◌++◌, IfOk, bytes_eq, codes};
ghost use Rattle.jdomain.specs.CodeSources.{code_of, paths_match, ports_agree, stands_for, url_of, url_of_units, written_host};
ghost use Rattle.jdomain.specs.ProofNames.{ends_in_slash};

use jground::jtext::Units;
use jpolicy::Grant;
use std::alloc::{AllocError, Global};
use url::{ParseError, Url};

/// The most bytes that a URL may have.
pub const MOST_URL: usize = 65536;

/// The code that a grant is for.
#[derive(Drop)]
pub enum Code {
    /// That of every source.
    All,
    /// That of no source.
    Nothing,
    /// That of the sources for which a code base stands.
    Under(Url),
}

// ---- texts that are URLs

/// The URL that a text is, if it is one and isn't too long.
#[tactic(auto, unfolding(crate::specs::CodeSources::url_of))]
pub fn url_of(alloc: Global, text: &str) -> Result<Option<Url>, AllocError>
    ensures { IfOk result (λ url. url ≡ url_of text.now) }
{
    if MOST_URL < text.len() {
        return Ok(None);
    }
    match Url::parse(alloc, text) {
        Ok(url) => Ok(Some(url)),
        Err(ParseError::OutOfMemory) => Err(AllocError),
        Err(ParseError::Overflow) => Err(AllocError),
        Err(_) => Ok(None),
    }
}

/// The URL that units are, if they are one.
#[tactic(auto, unfolding(crate::specs::CodeSources::url_of_units))]
fn url_of_units(alloc: Global, units: &Units) -> Result<Option<Url>, AllocError>
    ensures { IfOk result (λ url. url ≡ url_of_units units.now) }
{
    match String::from_utf16(alloc, units.as_slice())? {
        Ok(text) => url_of(alloc, text.as_str()),
        Err(_) => Ok(None),
    }
}

// ---- the code that a grant is for

impl Code {
    /// The code that a grant is for.
    #[tactic(auto, unfolding(crate::specs::CodeSources::code_of))]
    pub fn of(alloc: Global, grant: &Grant) -> Result<Code, AllocError>
        ensures { IfOk result (λ code. code ≡ code_of grant.now) }
    {
        if grant.asks_more {
            return Ok(Code::Nothing);
        }
        let Some(base) = &grant.code_base else {
            return Ok(Code::All);
        };
        match url_of_units(alloc, base)? {
            Some(url) => Ok(Code::Under(url)),
            None => Ok(Code::Nothing),
        }
    }
}

// ---- the code that a code base stands for

/// Whether a code base stands for the code of a source: by scheme, host, port and path alone.
pub fn stands_for(base: &Url, source: &Url) -> bool
    ensures { result ≡ stands_for base.now source.now }
{
    if base.scheme() != source.scheme() {
        return false;
    }
    if written_host(base) != written_host(source) {
        return false;
    }
    if !ports_agree(base.port(), source.port()) {
        return false;
    }
    paths_match(base.path().as_bytes(), source.path().as_bytes())
}

/// The host as a URL writes it, with nothing for no host.
fn written_host(url: &Url) -> &str
    ensures { result.now ≡ written_host url.now }
{
    match url.host_str() {
        Some(host) => host,
        None => "",
    }
}

/// Whether the port of a code base, where it has one, is that of the source.
fn ports_agree(base: Option<u16>, port: Option<u16>) -> bool
    ensures { result ≡ ports_agree base port }
{
    match (base, port) {
        (None, _) => true,
        (Some(_), None) => false,
        (Some(base), Some(port)) => base == port,
    }
}

/// Whether the path of a code base stands for a directory.
fn paths_match(base: &[u8], directory: &[u8]) -> bool
    ensures { result ≡ paths_match base.now directory.now }
{
    if base.ends_with(b"/-") {
        return directory.starts_with(&base[..base.len() - 1]);
    }
    if base.ends_with(b"/*") {
        return &base[..base.len() - 1] == directory;
    }
    base == directory || is_with_slash(base, directory)
}

/// Whether a path is that of a directory.
pub fn ends_in_slash(path: &[u8]) -> bool
    ensures { result ≡ ends_in_slash path.now }
{
    path.ends_with(b"/")
}

/// Whether a path with a slash behind it is a directory.
fn is_with_slash(path: &[u8], directory: &[u8]) -> bool
    ensures { result ≡ bytes_eq (path.now ++ codes "/") directory.now }
{
    match directory.strip_suffix(b"/") {
        Some(front) => path == front,
        None => false,
    }
}
