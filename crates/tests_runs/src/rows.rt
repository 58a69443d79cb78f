/// What fails in a row: the read, the write and the put of these numbers, and the room for what is put.
#[derive(Clone, Copy)]
pub struct Faults {
    pub read: u64,
    pub write: u64,
    pub put: u64,
    pub room: usize,
}

impl Faults {
    /// Reads, writes and puts are numbered from 1, and no command puts so much.
    pub const NONE: Faults = Faults {
        read: 0,
        write: 0,
        put: 0,
        room: 65_536,
    };
}

/// How often a command is asked, and over what.
#[derive(Clone, Copy)]
pub enum Asked {
    /// Once, over the files.
    Real,
    /// Over files in memory, and over files that aren't told.
    Memory(Faults),
    /// For each put of one byte that fails, and for one behind them.
    Drips,
    /// For each front of the last of the files in memory.
    Fronts,
    /// For each number of steps below this one, as the first line of the job in memory.
    Steps(u32),
    /// So too, and in the form `pass` beside.
    Forms(u32),
    /// Once over the files in memory, and once over what `rewrite` makes of them.
    Moved,
    /// Once, over files in memory of which `rewrite` has stored what it makes of them.
    Rewritten,
}

/// Which files are to be stored: the first ones of the list of this name, and none behind them. A list without a name says nothing.
#[derive(Clone, Copy)]
pub struct Stored<'a> {
    pub count: usize,
    pub list: &'a str,
}

/// A row: the words of a command, the name of what it is to write, the number of its status, how it is asked, its files in memory, and
/// what it is to store.
#[derive(Clone, Copy)]
pub struct Row<'a> {
    pub words: &'a str,
    pub name: &'a str,
    pub status: u8,
    pub asked: Asked,
    pub files: &'a str,
    pub stored: Stored<'a>,
}

/// How a word and a number say that a command is asked.
fn asked_of(word: &str, digits: &str) -> Option<Asked> {
    let number = digits.parse::<u32>().ok()?;
    let mut faults = Faults::NONE;
    match word {
        "read" => faults.read = u64::from(number),
        "write" => faults.write = u64::from(number),
        "put" => faults.put = u64::from(number),
        "room" => faults.room = number as usize,
        "steps" => return Some(Asked::Steps(number)),
        "forms" => return Some(Asked::Forms(number)),
        _ => return None,
    }
    Some(Asked::Memory(faults))
}

/// How a command is asked, by what stands behind its files.
fn asked_by(how: &str) -> Option<Asked> {
    match how {
        "fronts" => Some(Asked::Fronts),
        "drips" => Some(Asked::Drips),
        "moved" => Some(Asked::Moved),
        "rewritten" => Some(Asked::Rewritten),
        _ => match how.split_once(' ') {
            Some((word, digits)) => asked_of(word, digits),
            None => None,
        },
    }
}

/// The files of a row, and how it is asked.
fn given_of(given: &str) -> Option<(&str, Asked)> {
    match given.split_once(" | ") {
        Some((files, how)) => Some((files, asked_by(how)?)),
        None => Some((given, Asked::Memory(Faults::NONE))),
    }
}

/// What is given of a row, and what it is to store.
fn stored_of(given: &str) -> Option<(&str, Stored<'_>)> {
    let Some((given, stored)) = given.split_once(" | stores ") else {
        return Some((given, Stored { count: 0, list: "" }));
    };
    let (digits, list) = stored.split_once(' ')?;
    let count = digits.parse::<u32>().ok()? as usize;
    Some((given, Stored { count, list }))
}

/// The row of words and of what stands behind them, over files, with a way of being asked.
fn row_with<'a>(
    words: &'a str,
    wanted: &'a str,
    files: &'a str,
    asked: Asked,
    stored: Stored<'a>,
) -> Option<Row<'a>> {
    let (name, digits) = wanted.split_once(' ')?;
    let status = digits.parse::<u8>().ok()?;
    Some(Row {
        words,
        name,
        status,
        asked,
        files,
        stored,
    })
}

/// The row of a line, none where it is no row.
pub fn row_of(line: &str) -> Option<Row<'_>> {
    let (words, rest) = line.split_once(" > ")?;
    let Some((wanted, given)) = rest.split_once(" | ") else {
        return row_with(words, rest, "", Asked::Real, Stored { count: 0, list: "" });
    };
    let (given, stored) = stored_of(given)?;
    let (files, asked) = given_of(given)?;
    row_with(words, wanted, files, asked, stored)
}
