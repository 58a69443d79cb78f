use crate::move_asking::{asked, descriptor};
use std::alloc::{AllocError, Global};
use tests_rows::{Answer, Unread, first, hex_of};

/// A pool with a name.
#[derive(Drop)]
struct Named {
    name: String,
    bytes: Vec<u8>,
}

/// What was read so far about methods that are moved.
#[derive(Drop)]
pub struct Moves {
    pools: Vec<Named>,
    /// The method of which something is asked, with the name of its pool first.
    given: String,
}

impl Moves {
    pub fn new(alloc: Global) -> Moves {
        Moves {
            pools: Vec::new(alloc),
            given: String::new(alloc),
        }
    }

    fn find(&self, name: &str) -> Result<&[u8], Unread> {
        for one in &self.pools {
            if one.name.as_str() == name {
                return Ok(one.bytes.as_slice());
            }
        }
        Err(Unread::Line)
    }

    fn put_pool(&mut self, alloc: Global, fields: &str) -> Result<(), Unread> {
        let (name, words) = first(fields)?;
        let bytes = hex_of(alloc, words)?;
        let name = String::from_str(alloc, name)?;
        let named = Named { name, bytes };
        Ok(self.pools.push(named).map_err(AllocError::from)?)
    }

    /// Whether a line is a pool, or a method of which later lines ask.
    pub fn is_known(&mut self, alloc: Global, line: &str) -> Result<bool, Unread> {
        let Some((kind, fields)) = line.split_once(' ') else {
            return Err(Unread::Line);
        };
        match kind {
            "pool" => self.put_pool(alloc, fields)?,
            "given" => self.given = String::from_str(alloc, fields)?,
            _ => return Ok(false),
        }
        Ok(true)
    }

    /// Answers a row.
    pub fn ask(&self, row: &str, answer: &mut Answer) {
        let Some(question) = row.strip_prefix("ask ") else {
            return answer.refuse();
        };
        let (word, rest) = question.split_once(' ').unwrap_or((question, ""));
        if word == "descriptor" {
            return descriptor(rest, answer);
        }
        let (name, given) = answer.parted(self.given.as_str(), " | ");
        match self.find(name) {
            Ok(pool) => asked(pool, given, (word, rest), answer),
            Err(_) => answer.refuse(),
        }
    }
}
