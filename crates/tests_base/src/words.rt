use tests_rows::Answer;

/// A word, and what stands behind it, nothing where it is the last.
pub fn first(words: &str) -> (&str, &str) {
    words.split_once(' ').unwrap_or((words, ""))
}

/// Puts a number behind others.
fn put<N: Drop>(one: N, all: &mut Vec<N>, answer: &mut Answer) {
    if all.push(one).is_err() {
        answer.lack();
    }
}

/// The numbers of a word, parted by commas; `-` has none.
pub fn numbers(word: &str, answer: &mut Answer) -> Vec<u32> {
    let mut all = Vec::new(answer.alloc());
    if word == "-" {
        return all;
    }
    for one in word.split(',') {
        put(answer.number(one), &mut all, answer);
    }
    all
}

/// The units of hexadecimal text, four digits each, parted by commas; `-` has none.
pub fn units(word: &str, answer: &mut Answer) -> Vec<u16> {
    let mut units = Vec::new(answer.alloc());
    if word == "-" {
        return units;
    }
    for digits in word.split(',') {
        let bytes = answer.bytes(digits);
        match bytes.as_slice() {
            [high, low] => put(u16::from_be_bytes([*high, *low]), &mut units, answer),
            _ => answer.refuse(),
        }
    }
    units
}
