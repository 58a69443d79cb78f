use jdomain::{CodeSource, SourceError};
use jground::jbase::{FaultOrMemory, Seq};
use jground::jtext::Units;
use jperm::Permission;
use jpolicy::Grant;
use std::alloc::Global;
use tests_rows::{Answer, Unread, bytes_of, string_of, unquoted, yes_or_no};

/// The code source that a field is, or why it is none.
fn read(alloc: Global, field: &str) -> Result<Result<CodeSource, SourceError>, Unread> {
    let text = string_of(alloc, unquoted(field)?)?;
    Ok(CodeSource::read(alloc, text.as_str()))
}

/// The code source that a field is.
pub fn source_of(alloc: Global, field: &str) -> Result<CodeSource, Unread> {
    match read(alloc, field)? {
        Ok(source) => Ok(source),
        Err(SourceError::Memory) => Err(Unread::Memory),
        Err(_) => Err(Unread::Line),
    }
}

/// The URL of a code source, or why it is none.
pub fn source(field: &str, answer: &mut Answer) {
    match read(answer.alloc(), field) {
        Ok(Ok(source)) => answer.tell_between("'", source.text().as_bytes(), "'"),
        Ok(Err(SourceError::Memory)) => answer.lack(),
        Ok(Err(why)) => answer.debug(&why),
        Err(why) => answer.fail(why),
    }
}

/// A code base in modified UTF-8, so that it may hold an unpaired surrogate, or none for `-`.
fn base_of(alloc: Global, field: &str) -> Result<Option<Units>, Unread> {
    if field == "-" {
        return Ok(None);
    }
    let bytes = bytes_of(alloc, unquoted(field)?)?;
    match jground::jtext::units_of(alloc, bytes.as_slice()) {
        Ok(units) => Ok(Some(units)),
        Err(FaultOrMemory::Memory) => Err(Unread::Memory),
        Err(FaultOrMemory::Fault(_)) => Err(Unread::Line),
    }
}

/// A grant with a code base, that may ask for more than its code.
fn grant_of(alloc: Global, code_base: Option<Units>, asks_more: bool) -> Grant {
    Grant {
        code_base,
        asks_more,
        entries: Seq::new(alloc),
    }
}

/// Whether a grant is for the code of a source.
fn is_for(alloc: Global, grant: &Grant, source: &str) -> Result<bool, Unread> {
    let source = source_of(alloc, source)?;
    Ok(source.matches(alloc, grant)?)
}

/// Whether a grant with a code base, that may ask for more than its code, is for the code of a source.
pub fn matched(asks_more: bool, fields: &str, answer: &mut Answer) {
    let (base, source) = answer.parted(fields, " | ");
    let alloc = answer.alloc();
    let base = match base_of(alloc, base) {
        Ok(base) => base,
        Err(why) => return answer.fail(why),
    };
    match is_for(alloc, &grant_of(alloc, base, asks_more), source) {
        Ok(is) => answer.tell(yes_or_no(is)),
        Err(why) => answer.fail(why),
    }
}

/// Tells the text of a permission, or the class alone where it is unresolved.
fn tell_one(permission: &Permission, answer: &mut Answer) {
    if let Permission::Unresolved { class } = permission {
        return answer.units(class.as_slice());
    }
    match permission.text(answer.alloc()) {
        Ok(text) => answer.units(text.as_slice()),
        Err(_) => answer.lack(),
    }
}

/// Tells the texts of permissions, each behind a `|`, and the class alone where one is unresolved.
pub fn tell_list(list: &[Permission], answer: &mut Answer) {
    answer.tell("'");
    for permission in list {
        answer.tell("|");
        tell_one(permission, answer);
    }
    answer.tell("'");
}
