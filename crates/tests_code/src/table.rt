use crate::code::Asked;
use crate::move_table::Moves;
use crate::{classes, code, gen_asking, pools, stack_maps, trips};
use jadder::Adder;
use jparts::jpool::Pool;
use std::alloc::Global;
use tests_rows::{Answer, Line, Rows, Unread, first, hex_of};

/// What the rows of a section are about.
#[derive(Clone, Copy)]
enum About {
    /// Class files and their parts.
    Parts,
    /// Jobs that are made.
    Jobs,
    /// Methods that are moved.
    Moves,
}

impl About {
    /// What the rows of the section of a name are about.
    fn of(name: &str) -> About {
        match name {
            "made jobs" => About::Jobs,
            "moved methods" => About::Moves,
            _ => About::Parts,
        }
    }
}

/// Answers a row about a part that two fields say.
fn ask_two(kind: &str, fields: &str, answer: &mut Answer) {
    let (one, other) = answer.parted(fields, " | ");
    match kind {
        "pool" => pools::pool(one, other, answer),
        "frames" => stack_maps::frames(one, other, answer),
        _ => trips::back(one, other, answer),
    }
}

/// What was read so far.
#[derive(Drop)]
pub struct Table {
    /// What the rows of the section are about.
    about: About,
    /// What stands in front of the rest of a class file.
    front: Vec<u8>,
    /// The pool that is asked.
    pool: Option<Pool>,
    /// The pool that grows.
    adder: Option<Adder>,
    /// The method that is moved.
    moves: Moves,
}

impl Table {
    pub fn new(alloc: Global) -> Table {
        Table {
            about: About::Parts,
            front: Vec::new(alloc),
            pool: None,
            adder: None,
            moves: Moves::new(alloc),
        }
    }

    /// How many indices the pool that grows has, or else the one that is asked.
    fn indices(&self, which: &str, answer: &mut Answer) {
        match (which, &self.pool, &self.adder) {
            ("pool", Some(pool), _) => answer.debug(&pool.entries().len()),
            ("adder", _, Some(adder)) => answer.debug(&adder.pool().entries().len()),
            _ => answer.refuse(),
        }
    }

    /// What the pool has at an index.
    fn look_up(&self, how: &str, index: &str, answer: &mut Answer) {
        match &self.pool {
            Some(pool) => pools::looked_up(pool, how, index, answer),
            None => answer.refuse(),
        }
    }

    fn add(&mut self, entry: &str, answer: &mut Answer) {
        match &mut self.adder {
            Some(adder) => pools::added(adder, entry, answer),
            None => answer.refuse(),
        }
    }

    /// Answers a row about class files and their parts.
    fn ask_part(&mut self, kind: &str, fields: &str, answer: &mut Answer) {
        match kind {
            "name" => pools::class_name(fields, answer),
            "descriptor" => pools::descriptor(fields, answer),
            "parts" => pools::parts(fields, answer),
            "pool" | "frames" | "back" => ask_two(kind, fields, answer),
            "indices" => self.indices(fields, answer),
            "text" | "class" | "entry" | "both" => self.look_up(kind, fields, answer),
            "add" => self.add(fields, answer),
            "maps" => stack_maps::read(fields, answer),
            "full" => stack_maps::two_full(answer),
            "code" => code::read(fields, answer),
            "list" => code::ask(Asked::List, fields, answer),
            "form" => code::ask(Asked::Form, fields, answer),
            "branches" => code::ask(Asked::Branches, fields, answer),
            "file" => classes::read(&[], fields, answer),
            "behind" => classes::read(self.front.as_slice(), fields, answer),
            _ => answer.refuse(),
        }
    }

    /// Makes the pool that grew the one that is asked.
    fn end_adding(&mut self) {
        self.pool = match self.adder.take() {
            Some(adder) => Some(adder.into_pool()),
            None => None,
        };
    }

    fn known(&mut self, alloc: Global, kind: &str, fields: &str) -> Result<bool, Unread> {
        match kind {
            "front" => self.front = hex_of(alloc, fields)?,
            "asked" => self.pool = Some(pools::pool_of(alloc, fields)?),
            "adder" => self.adder = Some(pools::adder_of(alloc, fields)?),
            "grown" => self.end_adding(),
            _ => return Ok(false),
        }
        Ok(true)
    }

    /// Whether a line is one that later lines are read by.
    fn is_known(&mut self, alloc: Global, line: &str) -> Result<bool, Unread> {
        match self.about {
            About::Parts => {
                let (kind, fields) = first(line)?;
                self.known(alloc, kind, fields)
            }
            About::Jobs => Ok(false),
            About::Moves => self.moves.is_known(alloc, line),
        }
    }

    /// Answers a row.
    fn ask(&mut self, question: &str, answer: &mut Answer) {
        match self.about {
            About::Parts => {
                let (kind, fields) = answer.parted(question, " | ");
                self.ask_part(kind, fields, answer);
            }
            About::Jobs => gen_asking::asked(question, answer),
            About::Moves => self.moves.ask(question, answer),
        }
    }
}

impl Rows for Table {
    fn read<'a>(&mut self, rt: &HostRuntime, line: &'a str) -> Result<Line<'a>, Unread> {
        let alloc = rt.alloc();
        if line.is_empty() || line.starts_with('#') {
            return Ok(Line::Known);
        }
        if let Some(name) = line.strip_prefix("section | ") {
            self.about = About::of(name);
            return Ok(Line::Section(name));
        }
        if self.is_known(alloc, line)? {
            return Ok(Line::Known);
        }
        let Some((question, wanted)) = line.rsplit_once(" | ") else {
            return Err(Unread::Line);
        };
        let mut answer = Answer::new(alloc);
        self.ask(question, &mut answer);
        Ok(Line::Row(wanted, answer.into_text()?))
    }
}
