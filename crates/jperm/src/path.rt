ghost use Rattle.std.specs.Prelude.{◌≡◌, ◌≤◌, ◌||◌, ◌++◌, IfOk, IsTrue, length, codes};
ghost use Rattle.std.specs.Str.{bytes_eq};
ghost use Rattle.jperm.specs.AbsolutePaths.{is_absolute};
ghost use Rattle.jperm.specs.NameCoverage.{goes_on};
ghost use Rattle.jperm.specs.PathCoverage.{path_covers, same_path, is_below, is_in, inside};

use jground::jtext::Units;
use std::alloc::{AllocError, Global};
use std::marker::Model;
use std::rc::Rc;

const SLASH: u16 = b'/' as u16;

/// A path that begins at the root. Contracts see its text, which a path shares with its copies.
#[derive(Debug, Drop)]
pub struct AbsolutePath {
    text: Rc<Units, Global>,
}

impl Model for AbsolutePath {
    ghost use Rattle.std.specs.Prelude.{ℕ, List, IsTrue};
    ghost use Rattle.jperm.specs.AbsolutePaths.{is_absolute};

    ghost Value = { List ℕ };

    ghost view = { λ p. p.text.value };

    ghost invariant = { λ p. IsTrue (is_absolute p.text.value) };
}

impl AbsolutePath {
    /// The path of a text that begins with a slash.
    pub fn new(alloc: Global, text: Units) -> Result<AbsolutePath, AllocError>
        requires { IsTrue (is_absolute text) }
        ensures { IfOk result (λ p. p ≡ text) }
    {
        Ok(AbsolutePath {
            text: Rc::new(alloc, text)?,
        })
    }

    /// The units of the path, lent.
    pub fn as_slice(&self) -> &[u16]
        ensures value { result.now ≡ self.now }
        ensures absolute { IsTrue (is_absolute self.now) }
    {
        self.text.as_ref().as_slice()
    }

    /// The same path again. Its text isn't copied.
    pub fn copy(&self) -> Result<AbsolutePath, AllocError>
        ensures { IfOk result (λ p. p ≡ self.now) }
    {
        Ok(AbsolutePath {
            text: self.text.clone()?,
        })
    }
}

/// What the path of a file permission names. The final `/-` or `/*` of a written path isn't part of it.
#[derive(Debug, Drop)]
pub enum FilePath {
    /// Every path, written `<<ALL FILES>>`.
    AllFiles,
    /// Every path below a directory, written with a final `/-`.
    Below(AbsolutePath),
    /// The files directly in a directory, written with a final `/*`.
    Children(AbsolutePath),
    /// One path.
    Exact(AbsolutePath),
}

impl FilePath {
    /// Whether this path covers the asked one.
    pub fn covers(&self, asked: &FilePath) -> bool
        ensures { result ≡ path_covers self.now asked.now }
    {
        match (self, asked) {
            (FilePath::AllFiles, _) => true,
            (FilePath::Below(dir), FilePath::Exact(path)) => is_below(
                dir.as_slice(),
                path.as_slice(),
            ),
            (FilePath::Below(dir), FilePath::Children(other)) => is_at_or_below(
                dir.as_slice(),
                other.as_slice(),
            ),
            (FilePath::Below(dir), FilePath::Below(other)) => is_at_or_below(
                dir.as_slice(),
                other.as_slice(),
            ),
            (FilePath::Children(dir), FilePath::Exact(path)) => is_in(
                dir.as_slice(),
                path.as_slice(),
            ),
            (FilePath::Children(dir), FilePath::Children(other)) => dir.as_slice()
                == other.as_slice(),
            (FilePath::Exact(path), FilePath::Exact(other)) => path.as_slice() == other.as_slice(),
            _ => false,
        }
    }

    /// Whether the two paths are equal.
    pub fn equal(&self, other: &FilePath) -> bool
        ensures { result ≡ same_path self.now other.now }
    {
        match (self, other) {
            (FilePath::AllFiles, FilePath::AllFiles) => true,
            (FilePath::Below(dir), FilePath::Below(other)) => dir.as_slice() == other.as_slice(),
            (FilePath::Children(dir), FilePath::Children(other)) => dir.as_slice()
                == other.as_slice(),
            (FilePath::Exact(path), FilePath::Exact(other)) => path.as_slice() == other.as_slice(),
            _ => false,
        }
    }

    /// The same path again. Its text isn't copied.
    pub fn copy(&self) -> Result<FilePath, AllocError>
        ensures { IfOk result (λ p. p ≡ self.now) }
    {
        match self {
            FilePath::AllFiles => Ok(FilePath::AllFiles),
            FilePath::Below(dir) => Ok(FilePath::Below(dir.copy()?)),
            FilePath::Children(dir) => Ok(FilePath::Children(dir.copy()?)),
            FilePath::Exact(path) => Ok(FilePath::Exact(path.copy()?)),
        }
    }
}

/// Whether two texts are equal.
pub fn same_text(text: &Units, other: &Units) -> bool
    ensures { result ≡ bytes_eq text.now other.now }
{
    text.as_slice() == other.as_slice()
}

/// Whether a directory is the given one or lies below it.
fn is_at_or_below(dir: &[u16], other: &[u16]) -> bool
    ensures { result ≡ (bytes_eq dir.now other.now || is_below dir.now other.now) }
{
    dir == other || is_below(dir, other)
}

/// Whether a path lies in a directory, with no other directory between them.
fn is_in(dir: &[u16], path: &[u16]) -> bool
    ensures { result ≡ is_in dir.now path.now }
{
    is_below(dir, path) && !path[inside_len(dir)..].contains(&SLASH)
}

/// How many units stand before the names in a directory.
fn inside_len(dir: &[u16]) -> usize
    ensures { result ≡ length (inside dir.now) }
{
    if dir == [SLASH].as_slice() {
        1
    } else {
        dir.len() + 1
    }
}

/// Whether a path lies below a directory.
fn is_below(dir: &[u16], path: &[u16]) -> bool
    ensures value { result ≡ is_below dir.now path.now }
    ensures long { IsTrue result → length (inside dir.now) ≤ length path.now }
{
    if dir == [SLASH].as_slice() {
        path.starts_with(dir) && dir.len() < path.len()
    } else {
        is_behind_slash(dir, path)
    }
}

/// Whether a path goes on behind a directory and a slash.
#[tactic(auto, using(crate::proofs::PathPrefixes::behind))]
fn is_behind_slash(dir: &[u16], path: &[u16]) -> bool
    ensures { result ≡ goes_on (dir.now ++ codes "/") path.now }
{
    if path.len() <= dir.len() + 1 {
        false
    } else if path.starts_with(dir) {
        path[dir.len()] == SLASH
    } else {
        false
    }
}
