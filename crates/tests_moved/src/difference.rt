use jresolution::jprogram::MethodId;
use std::fmt;

/// What differs between a program and its moved program.
#[derive(Clone, Copy)]
pub enum Difference {
    /// How many classes they have.
    Count,
    /// What a class is.
    Class(u32),
    /// Which classes have an interface: the place of its name among those that are asked for.
    Interface(usize),
    /// What the instructions of a method name.
    Names(MethodId),
    /// What is selected where a method is called, or where what it calls is.
    Selected(MethodId),
}

impl fmt::Display for Difference {
    fn fmt<W: fmt::Write>(&self, f: &mut fmt::Formatter<W>) -> fmt::Result {
        match *self {
            Difference::Count => write!(f, "how many classes"),
            Difference::Class(i) => write!(f, "class {i}"),
            Difference::Interface(i) => write!(f, "interface {i}"),
            Difference::Names(m) => write!(f, "names {} {}", m.class, m.method),
            Difference::Selected(m) => write!(f, "selected {} {}", m.class, m.method),
        }
    }
}
