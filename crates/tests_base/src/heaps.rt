use crate::words::first;
use jmemory::jheap::{CellType, Heap, Kind};
use jvalues::jops::Value;
use tests_rows::Answer;

fn kind_of(name: &str) -> Option<Kind> {
    match name {
        "object" => Some(Kind::Object(7)),
        "array" => Some(Kind::Array(1)),
        "text" => Some(Kind::Text),
        "piece" => Some(Kind::Piece),
        _ => None,
    }
}

/// What is made of the kind of a name and a length.
fn make(heap: &mut Heap, name: &str, len: &str, answer: &mut Answer) {
    let Some(kind) = kind_of(name) else {
        return answer.refuse();
    };
    let len = answer.number(len);
    answer.debug(&heap.make(kind, len));
}

/// What is made of a kind and a length in a heap with so many cells, and how many of these are left.
fn made(words: &str, answer: &mut Answer) {
    let (kind, rest) = answer.parted(words, " ");
    let (len, cells) = answer.parted(rest, " ");
    let cells = u32::from(answer.number::<u16>(cells));
    let Ok(mut heap) = Heap::open(answer.alloc(), cells) else {
        return answer.lack();
    };
    make(&mut heap, kind, len, answer);
    answer.spaced(&heap.left());
}

/// What a heap with so many cells answers to each word: a kind and a length make an object; `left`; `found` with a number.
fn steps(words: &str, answer: &mut Answer) {
    let (cells, rest) = first(words);
    let cells = answer.number::<u32>(cells);
    if cells >= 0x8000_0000 {
        return answer.refuse();
    }
    let Ok(mut heap) = Heap::open(answer.alloc(), cells) else {
        return answer.lack();
    };
    for step in rest.split(", ") {
        step_in(&mut heap, step, answer);
    }
}

fn step_in(heap: &mut Heap, step: &str, answer: &mut Answer) {
    let (word, count) = first(step);
    answer.space();
    match word {
        "left" => answer.debug(&heap.left()),
        "found" => {
            let number = answer.number(count);
            answer.debug(&heap.found(number));
        }
        _ => make(heap, word, count, answer),
    }
}

/// The second of two statics as it is at first and with -1 in it, then the first with the least long in it, and the second again.
fn statics(answer: &mut Answer) {
    let alloc = answer.alloc();
    let Ok(mut heap) = Heap::open(alloc, 0) else {
        return answer.lack();
    };
    let Ok(()) = heap.add_statics(alloc, 2) else {
        return answer.lack();
    };
    let before = heap.static_at(1, CellType::Int);
    heap.set_static(1, Value::Int(-1));
    let behind = heap.static_at(1, CellType::Int);
    heap.set_static(0, Value::Long(i64::MIN));
    let other = heap.static_at(0, CellType::Long);
    let last = heap.static_at(1, CellType::Int);
    answer.debug_pair(&before, &behind);
    answer.spaced(&other);
    answer.spaced(&last);
}

/// What is asked of heaps.
pub fn found(kind: &str, words: &str, answer: &mut Answer) {
    match kind {
        "make" => made(words, answer),
        "heap" => steps(words, answer),
        "statics" => statics(answer),
        _ => answer.refuse(),
    }
}
