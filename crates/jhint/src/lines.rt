use crate::said::{Said, piece_of};

/// What a line of each key is to be. What says `once` last stands once at most.
const RULES: &str = "policy takes a path, at most once\n\
prop takes NAME=VALUE, each NAME once\n\
cwd takes a path that begins with /, at most once\n\
code takes a URL whose path ends in /, as file:/app/, at most 4,096 times\n\
class takes a path, behind a line `code URL`, at most 65,535 times\n\
main takes the name of a class, once\n\
schedule takes numbers up to 4294967295 in digits alone, with one space between, at most 1000000 in all\n\
heap takes a number up to 16777216 in digits alone, at most once\n\
depth takes a number from 1 to 10000 in digits alone, at most once\n\
steps takes a number up to 1000000000000 in digits alone, at most once";

const NO_KEY: &str =
    "a line is a key, one space and a value; the keys are policy, prop, cwd, code, class, main, schedule, heap, depth and steps";

/// What stands in front of a mark, empty where it isn't there.
fn front_of(line: &str, mark: char) -> &str {
    match line.split_once(mark) {
        Some((front, _)) => front,
        None => "",
    }
}

/// The place of the first line that has this in front of a mark, counted from 0; how many lines there are, where none has.
fn place_of(text: &str, sought: &str, mark: char) -> usize {
    let mut place: usize = 0;
    for line in text.split('\n') {
        if front_of(line, mark) == sought {
            return place;
        }
        place = place.saturating_add(1);
    }
    place
}

/// Says of a line of a job's text which rule it breaks, or that it is missing.
fn say_of_text(text: &str, at: usize, said: &mut Said) {
    let line = piece_of(text, '\n', at, "");
    if line.is_empty() {
        said.words(b": a line `main NAME` is missing, as `main app/Main`");
        return;
    }
    said.words(b", \"");
    said.text(line);
    said.words(b"\": ");
    let key = front_of(line, ' ');
    let rule = piece_of(RULES, '\n', place_of(RULES, key, ' '), NO_KEY);
    // What only one line may say: the key, and of a property its name too.
    let mark = if rule.ends_with("NAME once") {
        '='
    } else {
        ' '
    };
    let sought = front_of(line, mark);
    let first = place_of(text, sought, mark);
    if rule.ends_with("once") && !sought.is_empty() && first < at {
        let number = first.saturating_add(1) as u64;
        return said.number(b"line ", number, b" says it already");
    }
    if line.ends_with('\r') {
        return said.words(b"the line ends in a carriage return");
    }
    said.told(rule);
}

/// Says of a job's text which rule its line of a number breaks, counted from 1.
pub fn say_line(path: &str, text: &[u8], number: u32, said: &mut Said) {
    said.text(path);
    said.number(b", line ", number as u64, b"");
    match str::from_utf8(text) {
        Ok(text) => say_of_text(text, (number as usize).saturating_sub(1), said),
        Err(_) => said.words(b": the bytes there are no UTF-8"),
    }
}
