ghost use Rattle.std.specs.Prelude.{◌∷◌};
ghost use Rattle.std.specs.Option.{option_to_list};

use crate::words::first;
use jstacks::{Pile, Spread};
use std::alloc::{AllocError, Global};
use tests_rows::Answer;

/// Items that are written as what they are in another list.
struct Pairs;

impl Spread<(u32, Option<u32>), u32> for Pairs {
    ghost spread = { λ pair. pair.0 ∷ option_to_list pair.1 };

    fn parts(item: (u32, Option<u32>)) -> (u32, Option<u32>) {
        item
    }
}

/// Changes a list by a word and an item; false where the word isn't one of those that do.
fn change(pile: &mut Pile<u32>, word: &str, i: usize, item: u32) -> Result<bool, AllocError> {
    match word {
        "push" => pile.push(item)?,
        "set" if i < pile.len() => pile.set(i, item),
        "set_at" if i < pile.len() => pile.set_at(i, item),
        "open" => pile.open()?,
        "close" => pile.close(),
        _ => return Ok(false),
    }
    Ok(true)
}

/// What a list answers to a word and a number.
fn told(pile: &mut Pile<u32>, word: &str, i: usize, answer: &mut Answer) {
    let len = pile.len();
    answer.space();
    match word {
        "get" if i < len => answer.debug(&pile.get(i)),
        "at" if i < len => answer.debug(&pile.at(i)),
        "top" if i <= len => answer.debug(&pile.top(i)),
        "len" => answer.debug(&len),
        "pop" if 0 < len => answer.debug(&pile.pop()),
        _ => answer.refuse(),
    }
}

/// What a list answers to a word, behind which may stand the number that it asks of, and an item.
fn step(pile: &mut Pile<u32>, words: &str, answer: &mut Answer) {
    let (word, rest) = first(words);
    let (i, item) = first(rest);
    let i = i.parse::<u32>().unwrap_or(0) as usize;
    match change(pile, word, i, item.parse::<u32>().unwrap_or(0)) {
        Ok(true) => {}
        Ok(false) => told(pile, word, i, answer),
        Err(_) => answer.lack(),
    }
}

/// What a list answers, word by word.
fn steps(words: &str, answer: &mut Answer) {
    let mut pile = Pile::new(answer.alloc());
    for one in words.split(", ") {
        step(&mut pile, one, answer);
    }
}

/// A list of 9, on which one is opened of the two newest items of another.
fn opened(alloc: Global, pile: &mut Pile<u32>) -> Result<(), AllocError> {
    let mut from = Pile::new(alloc);
    from.push((1, None))?;
    from.push((2, Some(3)))?;
    from.push((4, None))?;
    pile.push(9)?;
    pile.open_from::<(u32, Option<u32>), Pairs>(from.top(2), 5, 0)
}

/// The newest list that is opened of the two newest items of another, with -, 9 and that list's own below it once it is closed.
fn spread(answer: &mut Answer) {
    let alloc = answer.alloc();
    let mut pile = Pile::new(alloc);
    if opened(alloc, &mut pile).is_err() {
        return answer.lack();
    }
    answer.debug(&pile.top(pile.len()));
    pile.close();
    answer.spaced(&pile.top(pile.len()));
}

/// What is asked of lists one on the other.
pub fn found(kind: &str, words: &str, answer: &mut Answer) {
    match kind {
        "pile" => steps(words, answer),
        "spread" => spread(answer),
        _ => answer.refuse(),
    }
}
