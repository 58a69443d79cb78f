use crate::answering::answered;
use jreadclass::read_class;
use jresolution::jprogram::CodePart;
use std::alloc::{AllocError, Global};
use tests_rows::{Line, Rows, Unread, first, put_hex};

/// Bytes of a class file, with a name.
#[derive(Drop)]
struct Named {
    name: String,
    bytes: Vec<u8>,
}

/// What was read so far.
#[derive(Drop)]
pub struct Table {
    named: Vec<Named>,
    /// The names of the classes of the program of which something is asked.
    asked: String,
}

fn bytes_of(alloc: Global, words: &str) -> Result<Vec<u8>, Unread> {
    let mut bytes = Vec::new(alloc);
    put_hex(alloc, words, &mut bytes)?;
    Ok(bytes)
}

/// Puts a class behind others, all in one domain.
fn put_part(alloc: Global, bytes: &[u8], parts: &mut Vec<CodePart>) -> Result<(), Unread> {
    match read_class(alloc, bytes) {
        Ok(class) => Ok(
            parts
                .push(CodePart { domain: 0, class })
                .map_err(AllocError::from)?,
        ),
        Err(_) => Err(Unread::Line),
    }
}

impl Table {
    pub fn new(alloc: Global) -> Table {
        Table {
            named: Vec::new(alloc),
            asked: String::new(alloc),
        }
    }

    fn find(&self, name: &str) -> Result<&[u8], Unread> {
        for one in &self.named {
            if one.name.as_str() == name {
                return Ok(one.bytes.as_slice());
            }
        }
        Err(Unread::Line)
    }

    fn put_name(&mut self, alloc: Global, line: &str) -> Result<(), Unread> {
        let (name, words) = first(line)?;
        let bytes = bytes_of(alloc, words)?;
        let name = String::from_str(alloc, name)?;
        let named = Named { name, bytes };
        Ok(self.named.push(named).map_err(AllocError::from)?)
    }

    fn put(&self, alloc: Global, name: &str, parts: &mut Vec<CodePart>) -> Result<(), Unread> {
        put_part(alloc, self.find(name)?, parts)
    }

    /// The classes of these names.
    fn parts(&self, alloc: Global, names: &str) -> Result<Vec<CodePart>, Unread> {
        let mut parts = Vec::new(alloc);
        for name in names.split(' ') {
            if let Err(why) = self.put(alloc, name, &mut parts) {
                drop(parts);
                return Err(why);
            }
        }
        Ok(parts)
    }

    /// What is answered of the program of these names.
    fn answer(&self, alloc: Global, names: &str, question: Option<&str>) -> Result<String, Unread> {
        let parts = self.parts(alloc, names)?;
        answered(alloc, parts, question)
    }

    /// What differs first between the program of these classes and its moved program; where there is none, why.
    fn program(&mut self, alloc: Global, names: &str) -> Result<String, Unread> {
        self.asked = String::from_str(alloc, names)?;
        self.answer(alloc, names, None)
    }

    /// What both programs select, where a question asks it of the last ones.
    fn select(&self, alloc: Global, question: &str) -> Result<String, Unread> {
        self.answer(alloc, self.asked.as_str(), Some(question))
    }

    /// The answer to a question of a kind.
    fn found(&mut self, alloc: Global, kind: &str, question: &str) -> Result<String, Unread> {
        match kind {
            "program" => self.program(alloc, question),
            "select" => self.select(alloc, question),
            _ => Err(Unread::Line),
        }
    }
}

impl Rows for Table {
    fn read<'a>(&mut self, rt: &HostRuntime, line: &'a str) -> Result<Line<'a>, Unread> {
        let alloc = rt.alloc();
        if line.is_empty() || line.starts_with('#') {
            return Ok(Line::Known);
        }
        let Some((kind, rest)) = line.split_once(' ') else {
            return Err(Unread::Line);
        };
        if kind == "name" {
            self.put_name(alloc, rest)?;
            return Ok(Line::Known);
        }
        let (wanted, question) = first(rest)?;
        let found = self.found(alloc, kind, question)?;
        Ok(Line::Row(wanted, found))
    }
}
