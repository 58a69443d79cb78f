ghost use Rattle.std.specs.Prelude.{◌≡◌, ◌++◌, ◌∷◌, [], IfOk, OnOk, drop};
ghost use Rattle.jjob.specs.StoredJobText;
ghost use Rattle.jjob.specs.StoredJobText.{line_with, lines_with, paths_behind};

use crate::reading::first_line;
use crate::text::Text;
use jground::jbase::Seq;
use std::alloc::{AllocError, Global};

/// Whether a line names a class file.
fn names_class(line: &str) -> bool
    ensures { result ≡ StoredJobText.names_class line.now }
{
    line.as_bytes().starts_with(b"class ")
}

/// Puts a line that names a class file behind others, with the first of some paths in the place of its own.
fn put_class<'a>(line: &str, paths: &'a [Text], out: &mut Seq<u8>) -> Result<&'a [Text], AllocError>
    ensures out { OnOk result (out.new ≡ out.old ++ StoredJobText.with_first paths.now line.now) }
    ensures left { IfOk result (λ left. left.now ≡ drop 1 paths.now) }
{
    match paths {
        [] => {
            out.extend(line.as_bytes())?;
            Ok(paths)
        }
        [path, rest @ ..] => {
            out.extend(b"class ")?;
            out.extend(path.as_bytes())?;
            Ok(rest)
        }
    }
}

/// Puts a line behind others, with the first of some paths where it names a class file, and gives the paths that are left.
fn put_text<'a>(line: &str, paths: &'a [Text], out: &mut Seq<u8>) -> Result<&'a [Text], AllocError>
    ensures out { OnOk result (out.new ≡ out.old ++ line_with paths.now line.now) }
    ensures left { IfOk result (λ left. left.now ≡ paths_behind paths.now line.now) }
{
    if names_class(line) {
        return put_class(line, paths, out);
    }
    out.extend(line.as_bytes())?;
    Ok(paths)
}

/// The same, ended by a line feed.
fn put_line<'a>(line: &str, paths: &'a [Text], out: &mut Seq<u8>) -> Result<&'a [Text], AllocError>
    ensures out { OnOk result (out.new ≡ out.old ++ line_with paths.now line.now ++ 10 ∷ []) }
    ensures left { IfOk result (λ left. left.now ≡ paths_behind paths.now line.now) }
{
    let left = put_text(line, paths, out)?;
    out.push(b'\n')?;
    Ok(left)
}

/// Puts the last line of a text behind others, if it isn't empty.
#[tactic(auto, using(crate::proofs::StoredLines::last_none))]
fn put_last(line: &str, paths: &[Text], out: &mut Seq<u8>) -> Result<(), AllocError>
    ensures { OnOk result (out.new ≡ out.old ++ lines_with paths.now (line.now ∷ [])) }
{
    if line.is_empty() {
        return Ok(());
    }
    put_line(line, paths, out)?;
    Ok(())
}

/// The text of a job with these paths in the place of those of its class files, in their order. Each line is ended by a line feed.
#[tactic(auto, unfolding(crate::specs::StoredJobText::stored_job))]
pub fn stored_job(alloc: Global, text: &str, paths: &[Text]) -> Result<Seq<u8>, AllocError>
    ensures { IfOk result (λ out. out ≡ StoredJobText.stored_job text.now paths.now) }
{
    let mut out = Seq::new(alloc);
    let mut left = paths;
    let mut rest = text;
    while let Some((line, more)) = first_line(rest) {
        left = put_line(line, left, &mut out)?;
        rest = more;
    }
    put_last(rest, left, &mut out)?;
    Ok(out)
}
