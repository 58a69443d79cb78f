ghost use Rattle.std.specs.Prelude.{◌≡◌, ◌≤◌, ◌∷◌, [], IfOk, OnOk, IsTrue, length, fold, if◌then◌else◌};
ghost use Rattle.jperm.specs.AbsolutePaths.{is_absolute};
ghost use Rattle.jperm.specs.WrittenPaths.{path_of, absolute, path_of_names, has_sign, names_of, next};
ghost use Rattle.jperm.specs.PathCoverage.{slash};
ghost use Rattle.jperm.specs.TextPieces.{pieces};

use crate::path::{AbsolutePath, FilePath};
use crate::pieces::first_piece;
use crate::words;
use jground::jtext::Units;
use std::alloc::{AllocError, Global};

const SLASH: u16 = b'/' as u16;

const DOT: u16 = b'.' as u16;

/// The path of a written name, in a directory.
pub fn path_of(alloc: Global, directory: &[u16], name: &[u16]) -> Result<FilePath, AllocError>
    ensures { IfOk result (λ p. p ≡ path_of directory.now name.now) }
{
    if name == words::ALL_FILES.as_slice() {
        Ok(FilePath::AllFiles)
    } else if has_sign(b'-' as u16, name) {
        Ok(FilePath::Below(absolute(alloc, directory, &name[..name.len() - 1])?))
    } else if has_sign(b'*' as u16, name) {
        Ok(FilePath::Children(absolute(alloc, directory, &name[..name.len() - 1])?))
    } else {
        Ok(FilePath::Exact(absolute(alloc, directory, name)?))
    }
}

/// Whether a name is a sign, or ends in a slash and the sign.
fn has_sign(sign: u16, name: &[u16]) -> bool
    ensures value { result ≡ has_sign (sign ∷ []) name.now }
    ensures filled { IsTrue result → 1 ≤ length name.now }
{
    name == [sign].as_slice() || name.ends_with(&[SLASH, sign])
}

/// The path that a name gives where it is read in a directory.
#[tactic(auto, using(crate::proofs::Walks::goes_from, crate::proofs::Walks::begins_at_root))]
fn absolute(alloc: Global, directory: &[u16], name: &[u16]) -> Result<AbsolutePath, AllocError>
    ensures { IfOk result (λ p. p ≡ absolute directory.now name.now) }
{
    let mut names = start(alloc, directory, name)?;
    follow(alloc, &mut names, name)?;
    let path = path_of_names(alloc, &names)?;
    AbsolutePath::new(alloc, path)
}

/// The names from which a name leads on: none where it begins with a slash, else the directory's.
fn start(alloc: Global, directory: &[u16], name: &[u16]) -> Result<Vec<Units>, AllocError>
    ensures { IfOk result (λ names. names.items ≡ (if is_absolute name.now then [] else names_of directory.now)) }
{
    let mut names = Vec::new(alloc);
    if name.starts_with(&[SLASH]) {
        return Ok(names);
    }
    follow(alloc, &mut names, directory)?;
    Ok(names)
}

/// Goes on from some names along the names of a path.
fn follow(alloc: Global, names: &mut Vec<Units>, path: &[u16]) -> Result<(), AllocError>
    ensures { OnOk result (names.new.items ≡ fold next names.old.items (pieces slash path.now)) }
{
    let mut left = Some(path);
    while let Some(rest) = left {
        let (name, behind) = first_piece(rest, SLASH);
        enter(alloc, names, name)?;
        left = behind;
    }
    Ok(())
}

/// Goes on from some names along one more.
fn enter(alloc: Global, names: &mut Vec<Units>, name: &[u16]) -> Result<(), AllocError>
    ensures { OnOk result (names.new.items ≡ next names.old.items name.now) }
{
    if name.is_empty() || name == [DOT].as_slice() {
        return Ok(());
    }
    if name == [DOT, DOT].as_slice() {
        let _ = names.pop();
        return Ok(());
    }
    names.push(Units::from_slice(alloc, name)?)?;
    Ok(())
}

/// The path of some names.
fn path_of_names(alloc: Global, names: &[Units]) -> Result<Units, AllocError>
    ensures { IfOk result (λ p. p ≡ path_of_names names.now) }
{
    let mut path = Vec::new(alloc);
    if names.is_empty() {
        path.push(SLASH)?;
    }
    for name in names {
        path.push(SLASH)?;
        path.extend_from_slice(name.as_slice())?;
    }
    Ok(Units::from_vec(path))
}
