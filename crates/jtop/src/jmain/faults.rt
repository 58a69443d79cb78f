use jhint::say_file;
use joutput::jio::{MOST_READ, Sink};
use std::fs::{self, File};
use std::io::ErrorKind;

/// What a kind of failure means for a path; nothing where that isn't known.
fn reason_of(kind: ErrorKind) -> &'static str {
    match kind {
        ErrorKind::NotFound => "nothing is there",
        ErrorKind::PermissionDenied => "there is no right to it",
        ErrorKind::NotADirectory => "a file stands where a folder is wanted",
        ErrorKind::InvalidFilename | ErrorKind::InvalidInput => "it is no path",
        _ => "",
    }
}

fn open_reason(rt: &HostRuntime, path: &str) -> &'static str {
    match File::open(rt, path) {
        Ok(_) => "",
        Err(error) => reason_of(error.kind()),
    }
}

/// Why a file can't be read, as it is found now.
fn unread_reason(rt: &HostRuntime, path: &str) -> &'static str {
    match fs::metadata(rt, path) {
        Err(error) => reason_of(error.kind()),
        Ok(found) => {
            if found.is_dir() {
                return "it is a folder";
            }
            if !found.is_file() {
                return "";
            }
            if (MOST_READ as u64) < found.len() {
                return "it has more than 67,108,864 bytes";
            }
            open_reason(rt, path)
        }
    }
}

/// Why a file can't be stored, as it is found now. That nothing is there says nothing.
fn unstored_reason(rt: &HostRuntime, path: &str) -> &'static str {
    match fs::metadata(rt, path) {
        Err(error) if error.kind() == ErrorKind::NotFound => "",
        Err(error) => reason_of(error.kind()),
        Ok(found) => {
            if found.is_dir() {
                return "it is a folder";
            }
            ""
        }
    }
}

/// Whether a path that isn't one of the command's words ends in a carriage return.
fn ends_in_return(words: &[String], path: &str) -> bool {
    for word in words {
        if word.as_str() == path {
            return false;
        }
    }
    path.ends_with('\r')
}

/// Says which file couldn't be read, and why.
pub fn say_unread<K: Sink>(rt: &HostRuntime, words: &[String], path: Option<&str>, out: &mut K) {
    let reason = match path {
        Some(path) if ends_in_return(words, path) => "the line ends in a carriage return",
        Some(path) => unread_reason(rt, path),
        None => "",
    };
    say_file(rt.alloc(), path, " could not be read", reason, out);
}

/// Says which file couldn't be stored, and why.
pub fn say_unstored<K: Sink>(rt: &HostRuntime, path: Option<&str>, out: &mut K) {
    let reason = match path {
        Some(path) => unstored_reason(rt, path),
        None => "",
    };
    say_file(rt.alloc(), path, " could not be stored", reason, out);
}
