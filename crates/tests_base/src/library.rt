use jlib::{LibClass, Side, class, member, open_classes};
use tests_rows::Answer;

/// The class of a name, on either side.
fn classes(name: &str, answer: &mut Answer) {
    let name = name.as_bytes();
    let source = class(Side::Source, name);
    let passing = class(Side::Passing, name);
    answer.debug_pair(&source, &passing);
}

/// The member of a class by its name and descriptor, on either side.
fn members(words: &str, answer: &mut Answer) {
    let (owner, rest) = answer.parted(words, " ");
    let (name, desc) = answer.parted(rest, " ");
    let (owner, name, desc) = (owner.as_bytes(), name.as_bytes(), desc.as_bytes());
    let source = member(Side::Source, owner, name, desc);
    let passing = member(Side::Passing, owner, name, desc);
    answer.debug_pair(&source, &passing);
}

/// What a class is: the class above it, and whether it is open, an interface, or abstract.
fn about(found: LibClass, name: &str, answer: &mut Answer) {
    if found.name() != name.as_bytes() {
        return answer.refuse();
    }
    answer.debug_pair(&found.superclass(), &found.is_open());
    answer.spaced(&found.is_interface());
    answer.spaced(&found.is_abstract());
}

/// Whether users may not override a member below a class.
fn fixed(words: &str, answer: &mut Answer) {
    let (below, rest) = answer.parted(words, " ");
    let (name, desc) = answer.parted(rest, " ");
    match class(Side::Source, below.as_bytes()) {
        Some(below) => answer.debug(&below.has_fixed(name.as_bytes(), desc.as_bytes())),
        None => answer.refuse(),
    }
}

/// How many classes are open, and those among them that let no member of a name and a descriptor be overridden.
fn opened(words: &str, answer: &mut Answer) {
    let (name, desc) = answer.parted(words, " ");
    answer.debug(&open_classes().len());
    for one in open_classes() {
        if one.fixes(name.as_bytes(), desc.as_bytes()) {
            answer.spaced(&one);
        }
    }
}

/// What is asked of a class by its name: what it is, or the interface that it implements.
fn of_class(kind: &str, name: &str, answer: &mut Answer) {
    let Some(found) = class(Side::Source, name.as_bytes()) else {
        return answer.refuse();
    };
    match kind {
        "is" => about(found, name, answer),
        "implements" => answer.debug(&found.implemented()),
        _ => answer.refuse(),
    }
}

/// What is asked of the library.
pub fn found(kind: &str, words: &str, answer: &mut Answer) {
    match kind {
        "class" => classes(words, answer),
        "member" => members(words, answer),
        "fixed" => fixed(words, answer),
        "open" => opened(words, answer),
        _ => of_class(kind, words, answer),
    }
}
