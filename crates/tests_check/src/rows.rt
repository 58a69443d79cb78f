use crate::words::{put_run, put_u16};
use std::alloc::Global;
use tests_rows::{Unread, hex_of, put_hex};

/// A field, and what stands behind it.
fn first(line: &str) -> Option<(&str, &str)> {
    line.split_once(" | ")
}

/// A method with code, each field as the line has it.
#[derive(Clone, Copy)]
pub struct Row<'a> {
    pub shows: &'a str,
    /// The name of what stands before its attributes: its flags, its name and its descriptor.
    pub head: &'a str,
    /// `max_stack` and `max_locals`.
    pub most: &'a str,
    pub code: &'a str,
    /// Each with its start, its end, its place and its class.
    pub handlers: &'a str,
    /// The content of its StackMapTable.
    pub frames: &'a str,
    pub answer: &'a str,
}

impl<'a> Row<'a> {
    /// The row that a line spells.
    pub fn of(line: &'a str) -> Option<Row<'a>> {
        let (shows, rest) = first(line)?;
        let (head, rest) = first(rest)?;
        let (most, rest) = first(rest)?;
        let (code, rest) = first(rest)?;
        let (handlers, rest) = first(rest)?;
        let (frames, answer) = first(rest)?;
        Some(Row {
            shows,
            head,
            most,
            code,
            handlers,
            frames,
            answer,
        })
    }

    /// Puts its handlers (JVMS 4.7.3), of eight bytes each.
    fn put_handlers(&self, alloc: Global, bytes: &mut Vec<u8>) -> Result<(), Unread> {
        let handlers = hex_of(alloc, self.handlers)?;
        put_u16(handlers.len() / 8, bytes)?;
        Ok(bytes.extend_from_slice(handlers.as_slice())?)
    }

    /// Puts its StackMapTable (JVMS 4.7.4), where it has one. Its name stands at index 2 of the pool.
    fn put_frames(&self, alloc: Global, bytes: &mut Vec<u8>) -> Result<(), Unread> {
        let frames = hex_of(alloc, self.frames)?;
        if frames.is_empty() {
            return put_u16(0, bytes);
        }
        put_u16(1, bytes)?;
        put_u16(2, bytes)?;
        put_run(frames.as_slice(), bytes)
    }

    /// The content of its Code attribute.
    fn content(&self, alloc: Global) -> Result<Vec<u8>, Unread> {
        let mut content = Vec::new(alloc);
        put_hex(alloc, self.most, &mut content)?;
        let code = hex_of(alloc, self.code)?;
        put_run(code.as_slice(), &mut content)?;
        self.put_handlers(alloc, &mut content)?;
        self.put_frames(alloc, &mut content)?;
        Ok(content)
    }

    /// Puts its attributes behind what stands before them: its Code (JVMS 4.7.3) alone, whose name stands at index 1 of the pool.
    pub fn put_code(&self, alloc: Global, bytes: &mut Vec<u8>) -> Result<(), Unread> {
        put_u16(1, bytes)?;
        put_u16(1, bytes)?;
        let content = self.content(alloc)?;
        put_run(content.as_slice(), bytes)
    }
}
