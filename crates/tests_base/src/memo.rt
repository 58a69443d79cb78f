use jcache::{Key, Memo};
use tests_rows::Answer;

/// A method that is looked for in a class.
#[derive(Clone, Copy, PartialEq, Eq)]
struct Call {
    class: u32,
    method: u32,
}

impl Key for Call {
    ghost numbered = { λ k. k.class };

    ghost use Rattle.std.proofs.Common.{rules};

    ghost exact = { Prim.search rules };

    fn number(self) -> u64 {
        u64::from(self.class)
    }
}

/// The numbers of a class and of a method, parted by a comma.
fn key(word: &str, answer: &mut Answer) -> Call {
    let (class, method) = answer.parted(word, ",");
    Call {
        class: answer.number(class),
        method: answer.number(method),
    }
}

/// What is got of a key by a word that has one alone; a word with `=` puts what stands behind it.
fn step(memo: &mut Memo<Call, u32>, word: &str, answer: &mut Answer) {
    if let Some((at, what)) = word.split_once('=') {
        let key = key(at, answer);
        return memo.put(key, answer.number(what));
    }
    let found = memo.get(key(word, answer));
    answer.spaced(&found);
}

/// What is got by each word.
pub fn found(words: &str, answer: &mut Answer) {
    let Ok(mut memo) = Memo::new(answer.alloc()) else {
        return answer.lack();
    };
    for word in words.split(' ') {
        step(&mut memo, word, answer);
    }
}
