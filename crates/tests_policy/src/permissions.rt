use crate::words::{put, tell_units, units_if, units_of};
use jground::jtext::Units;
use jperm::{FilePath, PermClass, PermError, Permission, covers, make};
use std::alloc::Global;
use std::slice::from_ref;
use tests_rows::{Answer, Unread, unquoted, yes_or_no};

fn class_of(word: &str) -> Result<PermClass, Unread> {
    match word {
        "All" => Ok(PermClass::All),
        "Runtime" => Ok(PermClass::Runtime),
        "Security" => Ok(PermClass::Security),
        "Property" => Ok(PermClass::Property),
        "File" => Ok(PermClass::File),
        _ => Err(Unread::Line),
    }
}

fn known(made: Result<Permission, PermError>) -> Result<Permission, Unread> {
    match made {
        Ok(permission) => Ok(permission),
        Err(PermError::Memory) => Err(Unread::Memory),
        Err(_) => Err(Unread::Line),
    }
}

/// The permission of a class with a name and actions that are spelled so, made in a directory.
fn made_of(
    alloc: Global,
    directory: &Units,
    class: PermClass,
    name: &str,
    actions: &str,
) -> Result<Permission, Unread> {
    let name = units_of(alloc, name)?;
    let actions = units_of(alloc, actions)?;
    known(make(alloc, class, Some(&name), Some(&actions), directory))
}

/// The permission that a field says, made in a directory: `CLASS 'NAME' 'ACTIONS'`, or `Unresolved 'CLASS'`.
pub fn permission(alloc: Global, directory: &Units, field: &str) -> Result<Permission, Unread> {
    let Some((class, words)) = field.split_once(' ') else {
        return Err(Unread::Line);
    };
    if class == "Unresolved" {
        let class = units_of(alloc, unquoted(words)?)?;
        return Ok(Permission::Unresolved { class });
    }
    let Some((name, actions)) = unquoted(words)?.split_once("' '") else {
        return Err(Unread::Line);
    };
    made_of(alloc, directory, class_of(class)?, name, actions)
}

/// The permission to read a property.
pub fn reads(alloc: Global, directory: &Units, name: &str) -> Result<Permission, Unread> {
    made_of(alloc, directory, PermClass::Property, name, "read")
}

/// The permissions to read properties.
pub fn readings(
    alloc: Global,
    directory: &Units,
    names: &[&str],
) -> Result<Vec<Permission>, Unread> {
    let mut list = Vec::new(alloc);
    for name in names {
        put(reads(alloc, directory, name)?, &mut list)?;
    }
    Ok(list)
}

/// What a class makes of a name and actions, `-` for none.
fn make_of(
    alloc: Global,
    directory: &Units,
    class: &str,
    name: &str,
    actions: &str,
) -> Result<Result<Permission, PermError>, Unread> {
    let class = class_of(class)?;
    let name = units_if(alloc, name)?;
    let actions = units_if(alloc, actions)?;
    Ok(make(alloc, class, name.as_ref(), actions.as_ref(), directory))
}

fn tell_permission(permission: &Permission, answer: &mut Answer) {
    match permission.text(answer.alloc()) {
        Ok(text) => tell_units(text.as_slice(), answer),
        Err(_) => answer.lack(),
    }
}

/// The text of the permission that a class makes of a name and actions, or why it makes none.
pub fn made(directory: &Units, fields: &str, answer: &mut Answer) {
    let (class, fields) = answer.parted(fields, " | ");
    let (name, actions) = answer.parted(fields, " | ");
    match make_of(answer.alloc(), directory, class, name, actions) {
        Ok(Ok(permission)) => tell_permission(&permission, answer),
        Ok(Err(PermError::Memory)) => answer.lack(),
        Ok(Err(why)) => answer.debug(&why),
        Err(why) => answer.fail(why),
    }
}

fn is_all_files(path: &FilePath) -> bool {
    path.equal(&FilePath::AllFiles)
}

/// Tells a path behind a word on what of it is named.
fn tell_located(how: &str, path: &[u16], answer: &mut Answer) {
    answer.tell(how);
    tell_units(path, answer);
}

/// Tells what a path names.
fn tell_named(path: &FilePath, answer: &mut Answer) {
    if is_all_files(path) {
        return answer.tell("all files");
    }
    match path {
        FilePath::AllFiles => answer.tell("not equal to itself"),
        FilePath::Exact(path) => tell_located("exactly ", path.as_slice(), answer),
        FilePath::Children(path) => tell_located("in ", path.as_slice(), answer),
        FilePath::Below(path) => tell_located("below ", path.as_slice(), answer),
    }
}

/// The permission on a file whose name is read in a directory.
fn file_of(alloc: Global, directory: &str, name: &str) -> Result<Permission, Unread> {
    let directory = units_of(alloc, unquoted(directory)?)?;
    made_of(alloc, &directory, PermClass::File, unquoted(name)?, "read")
}

fn tell_file(permission: &Permission, answer: &mut Answer) {
    match permission {
        Permission::File { path, .. } => tell_named(path, answer),
        _ => answer.refuse(),
    }
}

/// What the path of a file permission names, whose name is read in a directory.
pub fn path(fields: &str, answer: &mut Answer) {
    let (directory, name) = answer.parted(fields, " | ");
    match file_of(answer.alloc(), directory, name) {
        Ok(permission) => tell_file(&permission, answer),
        Err(why) => answer.fail(why),
    }
}

/// What is told of two permissions: whether one implies the other, if a list of it alone says the same.
fn implied(held: &Permission, asked: &Permission) -> &'static str {
    let implied = held.implies(asked);
    if covers(from_ref(held), asked) == implied {
        yes_or_no(implied)
    } else {
        "the list of it doesn't"
    }
}

/// Tells whether the copy of a permission equals another.
fn tell_equal(one: &Permission, other: &Permission, answer: &mut Answer) {
    match one.copy(answer.alloc()) {
        Ok(copy) => answer.tell(yes_or_no(copy.equal(other))),
        Err(_) => answer.lack(),
    }
}

/// What is asked of two permissions.
fn of_two(kind: &str, one: &Permission, other: &Permission, answer: &mut Answer) {
    match kind {
        "implies" => answer.tell(implied(one, other)),
        "equal" => tell_equal(one, other, answer),
        _ => answer.refuse(),
    }
}

/// What is asked of a permission and one that a field says.
fn of_other(kind: &str, directory: &Units, one: &Permission, field: &str, answer: &mut Answer) {
    match permission(answer.alloc(), directory, field) {
        Ok(other) => of_two(kind, one, &other, answer),
        Err(why) => answer.fail(why),
    }
}

/// Whether a permission implies another, and covers it as a list of one; or whether its copy equals the other.
pub fn compared(kind: &str, directory: &Units, fields: &str, answer: &mut Answer) {
    let (one, other) = answer.parted(fields, " | ");
    match permission(answer.alloc(), directory, one) {
        Ok(one) => of_other(kind, directory, &one, other, answer),
        Err(why) => answer.fail(why),
    }
}

/// Whether a list covers a permission.
pub fn covered(directory: &Units, held: &[Permission], field: &str, answer: &mut Answer) {
    match permission(answer.alloc(), directory, field) {
        Ok(asked) => answer.tell(yes_or_no(covers(held, &asked))),
        Err(why) => answer.fail(why),
    }
}

/// The permissions that fields say; none for `-`.
pub fn all(alloc: Global, directory: &Units, fields: &str) -> Result<Vec<Permission>, Unread> {
    if fields == "-" {
        return Ok(Vec::new(alloc));
    }
    let mut list = Vec::new(alloc);
    for field in fields.split(" | ") {
        put(permission(alloc, directory, field)?, &mut list)?;
    }
    Ok(list)
}
