use std::alloc::{AllocError, Global};
use std::{fmt, io};

/// What a line is.
pub enum Line<'a> {
    /// One that says nothing, or that later lines are read by.
    Known,
    /// The name of the rows behind it.
    Section(&'a str),
    /// The answer that it wants, and the one that was found.
    Row(&'a str, String),
}

/// Rows under one name, or none: how many were asked, and how many were answered as they say.
#[derive(Drop)]
pub struct Section {
    name: String,
    asked: u32,
    right: u32,
}

impl Section {
    /// No rows yet, and no name.
    pub fn new(alloc: Global) -> Section {
        Section {
            name: String::new(alloc),
            asked: 0,
            right: 0,
        }
    }

    /// Begins again, under a name.
    pub fn begin(&mut self, name: &str) -> Result<(), AllocError> {
        self.name.clear();
        self.asked = 0;
        self.right = 0;
        self.name.push_str(name)
    }

    /// Whether it has no rows yet.
    pub fn is_empty(&self) -> bool {
        self.asked == 0
    }

    /// Counts a row that was answered as it says, or wasn't.
    pub fn count(&mut self, right: bool) {
        self.asked = self.asked.saturating_add(1);
        self.right = self.right.saturating_add(u32::from(right));
    }

    /// Tells how many rows were asked and answered.
    pub fn tell(&self, rt: &HostRuntime) -> io::Result<()> {
        println!(rt; "{self}")
    }
}

impl fmt::Display for Section {
    fn fmt<W: fmt::Write>(&self, f: &mut fmt::Formatter<W>) -> fmt::Result {
        if !self.name.is_empty() {
            write!(f, "{}: ", self.name.as_str())?;
        }
        write!(f, "{} of {} as they say", self.right, self.asked)
    }
}
