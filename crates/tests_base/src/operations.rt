use jvalues::jnames::Compare::{Eq, Ge, Gt, Le, Lt, Ne};
use jvalues::jnames::Division::{Idiv, Irem, Ldiv, Lrem};
use jvalues::jnames::OpOne::{I2b, I2c, I2l, I2s, Ineg, L2i, Lneg};
use jvalues::jnames::OpTwo::{
    Iadd, Iand, Imul, Ior, Ishl, Ishr, Isub, Iushr, Ixor, Ladd, Land, Lcmp, Lmul, Lor, Lshl, Lshr,
    Lsub, Lushr, Lxor,
};
use jvalues::jnames::Shuffle::{Dup, Dup2, Dup2X1, Dup2X2, DupX1, DupX2, Pop, Pop2, Swap};
use jvalues::jops::Value::{Ctx, Int, Long, Ref};
use jvalues::jops::{DivideByZero, Shuffled, Value, divide, one, shuffle, test, two};
use tests_rows::Answer;

/// What two ints give.
#[tactic(auto, unfolding(jvalues::specs::jops::Operations::two))]
fn of_ints(name: &str, x: i32, y: i32) -> Option<Value> {
    match name {
        "iadd" => Some(two(Iadd, Int(x), Int(y))),
        "isub" => Some(two(Isub, Int(x), Int(y))),
        "imul" => Some(two(Imul, Int(x), Int(y))),
        "ishl" => Some(two(Ishl, Int(x), Int(y))),
        "ishr" => Some(two(Ishr, Int(x), Int(y))),
        "iushr" => Some(two(Iushr, Int(x), Int(y))),
        "iand" => Some(two(Iand, Int(x), Int(y))),
        "ior" => Some(two(Ior, Int(x), Int(y))),
        "ixor" => Some(two(Ixor, Int(x), Int(y))),
        _ => None,
    }
}

/// What two longs give.
#[tactic(auto, unfolding(jvalues::specs::jops::Operations::two))]
fn of_longs(name: &str, x: i64, y: i64) -> Option<Value> {
    match name {
        "ladd" => Some(two(Ladd, Long(x), Long(y))),
        "lsub" => Some(two(Lsub, Long(x), Long(y))),
        "lmul" => Some(two(Lmul, Long(x), Long(y))),
        "land" => Some(two(Land, Long(x), Long(y))),
        "lor" => Some(two(Lor, Long(x), Long(y))),
        "lxor" => Some(two(Lxor, Long(x), Long(y))),
        "lcmp" => Some(two(Lcmp, Long(x), Long(y))),
        _ => None,
    }
}

/// What a long gives, shifted by an int.
#[tactic(auto, unfolding(jvalues::specs::jops::Operations::two))]
fn shifted(name: &str, x: i64, y: i32) -> Option<Value> {
    match name {
        "lshl" => Some(two(Lshl, Long(x), Int(y))),
        "lshr" => Some(two(Lshr, Long(x), Int(y))),
        "lushr" => Some(two(Lushr, Long(x), Int(y))),
        _ => None,
    }
}

/// What an int gives.
#[tactic(auto, unfolding(jvalues::specs::jops::Operations::one))]
fn of_int(name: &str, x: i32) -> Option<Value> {
    match name {
        "ineg" => Some(one(Ineg, Int(x))),
        "i2l" => Some(one(I2l, Int(x))),
        "i2b" => Some(one(I2b, Int(x))),
        "i2c" => Some(one(I2c, Int(x))),
        "i2s" => Some(one(I2s, Int(x))),
        _ => None,
    }
}

/// What a long gives.
#[tactic(auto, unfolding(jvalues::specs::jops::Operations::one))]
fn of_long(name: &str, x: i64) -> Option<Value> {
    match name {
        "lneg" => Some(one(Lneg, Long(x))),
        "l2i" => Some(one(L2i, Long(x))),
        _ => None,
    }
}

/// What a division of ints gives.
#[tactic(auto, unfolding(jvalues::specs::jops::Operations::divide))]
fn divided(name: &str, x: i32, y: i32) -> Option<Result<Value, DivideByZero>> {
    match name {
        "idiv" => Some(divide(Idiv, Int(x), Int(y))),
        "irem" => Some(divide(Irem, Int(x), Int(y))),
        _ => None,
    }
}

/// What a division of longs gives.
#[tactic(auto, unfolding(jvalues::specs::jops::Operations::divide))]
fn long_divided(name: &str, x: i64, y: i64) -> Option<Result<Value, DivideByZero>> {
    match name {
        "ldiv" => Some(divide(Ldiv, Long(x), Long(y))),
        "lrem" => Some(divide(Lrem, Long(x), Long(y))),
        _ => None,
    }
}

/// Whether a test of two ints holds.
fn holds(name: &str, x: i32, y: i32) -> Option<bool> {
    match name {
        "eq" => Some(test(Eq, Int(x), Int(y))),
        "ne" => Some(test(Ne, Int(x), Int(y))),
        "lt" => Some(test(Lt, Int(x), Int(y))),
        "ge" => Some(test(Ge, Int(x), Int(y))),
        "gt" => Some(test(Gt, Int(x), Int(y))),
        "le" => Some(test(Le, Int(x), Int(y))),
        _ => None,
    }
}

/// Whether a test of two references holds.
fn ref_holds(name: &str, x: u32, y: u32) -> Option<bool> {
    match name {
        "eq" => Some(test(Eq, Ref(x), Ref(y))),
        "ne" => Some(test(Ne, Ref(x), Ref(y))),
        _ => None,
    }
}

/// What a number gives. The name of an instruction that takes a long begins with `l`.
fn of_one(name: &str, x: &str, answer: &mut Answer) -> Option<Value> {
    if name.starts_with('l') {
        return of_long(name, answer.number(x));
    }
    of_int(name, answer.number(x))
}

/// What two numbers give.
fn of_two(name: &str, x: &str, y: &str, answer: &mut Answer) -> Option<Value> {
    if !name.starts_with('l') {
        return of_ints(name, answer.number(x), answer.number(y));
    }
    let x = answer.number(x);
    if name.contains("sh") {
        return shifted(name, x, answer.number(y));
    }
    of_longs(name, x, answer.number(y))
}

/// What is asked of ints and longs, by the name of an instruction.
fn computed(words: &str, answer: &mut Answer) {
    let (name, rest) = answer.parted(words, " ");
    let found = match rest.split_once(' ') {
        Some((x, y)) => of_two(name, x, y, answer),
        None => of_one(name, rest, answer),
    };
    answer.debug(&found);
}

/// What is asked of a division.
fn quotient(words: &str, answer: &mut Answer) {
    let (name, rest) = answer.parted(words, " ");
    let (x, y) = answer.parted(rest, " ");
    let found = if name.starts_with('l') {
        long_divided(name, answer.number(x), answer.number(y))
    } else {
        divided(name, answer.number(x), answer.number(y))
    };
    answer.debug(&found);
}

/// What is asked of a test of two ints.
fn tested(words: &str, answer: &mut Answer) {
    let (name, rest) = answer.parted(words, " ");
    let (x, y) = answer.parted(rest, " ");
    let found = holds(name, answer.number(x), answer.number(y));
    answer.debug(&found);
}

/// What is asked of a test of two references.
fn refs_tested(words: &str, answer: &mut Answer) {
    let (name, rest) = answer.parted(words, " ");
    let (x, y) = answer.parted(rest, " ");
    let found = ref_holds(name, answer.number(x), answer.number(y));
    answer.debug(&found);
}

/// Items of one slot, longs, and a place where no item is.
const A: Value = Ref(1);

const B: Value = Int(2);

const C: Value = Ctx(3);

const D: Value = Ref(4);

const J: Value = Long(5);

const K: Value = Long(6);

const Z: Value = Int(0);

/// What an instruction does with items of one slot.
#[tactic(auto, unfolding(jvalues::specs::jops::Shuffles::shuffle))]
fn moved(words: &str) -> Option<Shuffled> {
    match words {
        "pop A" => Some(shuffle(Pop, [Z, Z, Z, A])),
        "pop2 B A" => Some(shuffle(Pop2, [Z, Z, B, A])),
        "dup A" => Some(shuffle(Dup, [Z, Z, Z, A])),
        "dup_x1 B A" => Some(shuffle(DupX1, [Z, Z, B, A])),
        "dup_x2 C B A" => Some(shuffle(DupX2, [Z, C, B, A])),
        "dup2 B A" => Some(shuffle(Dup2, [Z, Z, B, A])),
        "dup2_x1 C B A" => Some(shuffle(Dup2X1, [Z, C, B, A])),
        "dup2_x2 D C B A" => Some(shuffle(Dup2X2, [D, C, B, A])),
        "swap B A" => Some(shuffle(Swap, [Z, Z, B, A])),
        _ => None,
    }
}

/// What an instruction does with items of which some are longs.
#[tactic(auto, unfolding(jvalues::specs::jops::Shuffles::shuffle))]
fn moved_longs(words: &str) -> Option<Shuffled> {
    match words {
        "pop2 B J" => Some(shuffle(Pop2, [Z, Z, B, J])),
        "dup_x2 K A" => Some(shuffle(DupX2, [Z, Z, K, A])),
        "dup2 J" => Some(shuffle(Dup2, [Z, Z, Z, J])),
        "dup2_x1 B J" => Some(shuffle(Dup2X1, [Z, Z, B, J])),
        "dup2_x2 C B J" => Some(shuffle(Dup2X2, [Z, C, B, J])),
        "dup2_x2 K B A" => Some(shuffle(Dup2X2, [Z, K, B, A])),
        "dup2_x2 K J" => Some(shuffle(Dup2X2, [Z, Z, K, J])),
        _ => None,
    }
}

/// The letter of an item.
fn letter(item: Value) -> &'static str {
    match item {
        Ref(1) => "A",
        Int(2) => "B",
        Ctx(3) => "C",
        Ref(4) => "D",
        Long(5) => "J",
        Long(6) => "K",
        _ => "?",
    }
}

/// How many items an instruction takes, and those that it puts.
fn shuffled(words: &str, answer: &mut Answer) {
    let Some(moved) = moved(words).or(moved_longs(words)) else {
        return answer.refuse();
    };
    answer.debug(&moved.taken);
    answer.tell(" <");
    for item in moved.values.iter().take(moved.put as usize) {
        answer.tell(letter(*item));
    }
    answer.tell(">");
}

/// What is asked of operations.
pub fn found(kind: &str, words: &str, answer: &mut Answer) {
    match kind {
        "computes" => computed(words, answer),
        "divides" => quotient(words, answer),
        "compares" => tested(words, answer),
        "compares_refs" => refs_tested(words, answer),
        "moves" => shuffled(words, answer),
        _ => answer.refuse(),
    }
}
