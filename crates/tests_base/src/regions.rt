use crate::words::first;
use jmemory::jregion::Region;
use tests_rows::Answer;

/// What a region answers to each word: `place` with a length, `room`.
fn steps(words: &str, answer: &mut Answer) {
    let (cells, rest) = first(words);
    let cells = answer.number(cells);
    let Ok(mut region) = Region::open(answer.alloc(), cells) else {
        return answer.lack();
    };
    for step in rest.split(", ") {
        step_in(&mut region, step, answer);
    }
}

fn step_in(region: &mut Region, step: &str, answer: &mut Answer) {
    let (word, len) = first(step);
    match word {
        "place" => {
            let block = region.place(answer.number(len));
            answer.space();
            answer.tell(if block.is_some() { "block" } else { "none" });
        }
        "room" => answer.spaced(&region.room()),
        _ => answer.refuse(),
    }
}

/// What two blocks hold, of 2 cells and of 3: each as it was placed, and once numbers were put into them.
fn cells(answer: &mut Answer) {
    let Ok(mut region) = Region::open(answer.alloc(), 5) else {
        return answer.lack();
    };
    let Some(one) = region.place(2) else {
        return answer.refuse();
    };
    answer.debug(&region.read(one, 1));
    region.write(one, 1, 7);
    let Some(other) = region.place(3) else {
        return answer.refuse();
    };
    region.write(other, 0, u64::MAX);
    answer.spaced(&region.read(one, 0));
    answer.spaced(&region.read(one, 1));
    answer.spaced(&region.read(other, 0));
    answer.spaced(&region.read(other, 2));
}

/// What is asked of regions.
pub fn found(kind: &str, words: &str, answer: &mut Answer) {
    match kind {
        "region" => steps(words, answer),
        "cells" => cells(answer),
        _ => answer.refuse(),
    }
}
