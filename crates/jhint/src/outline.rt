/// The seven bytes of the entry of the pool with the text `Code`: its tag, its size and the letters.
const CODE: usize = 0x01_0004_436f_6465;

/// What a part of a class file is.
#[derive(Clone, Copy)]
pub enum Spot {
    Head,
    /// The entry of the pool at an index.
    Entry(usize),
    /// What the class says of itself, behind the pool.
    Class,
    Field,
    Method,
    /// The code of a method.
    Code,
    /// Attributes of the class.
    Behind,
}

/// A class file (JVMS 4.1), gone through as far as it is laid out so, and its part in which a byte stands.
#[derive(Clone, Copy)]
pub struct Outline<'a> {
    file: &'a [u8],
    /// Where what isn't gone through yet begins.
    next: usize,
    /// The index of the last entry of the pool that was passed and has the text `Code`.
    code: usize,
    /// The byte that is sought.
    sought: usize,
    /// The part in which it stands, and where that begins.
    pub spot: Spot,
    pub from: usize,
    /// The indices of the name and the descriptor of the last field or method that begins no later than it.
    pub name: usize,
    pub desc: usize,
}

/// The number of so many bytes at a place, 0 where they aren't all there.
pub fn number_at(file: &[u8], at: usize, size: usize) -> usize {
    let mut number: usize = 0;
    for byte in file.get(at..at.saturating_add(size)).unwrap_or(b"") {
        number = number.saturating_mul(256).saturating_add(*byte as usize);
    }
    number
}

impl<'a> Outline<'a> {
    /// The number of so many bytes that stands so far ahead.
    fn ahead(&self, ahead: usize, size: usize) -> usize {
        number_at(self.file, self.next.saturating_add(ahead), size)
    }

    /// Marks a part that begins so far ahead: it has the byte that is sought, unless a later one begins no later than that byte.
    fn mark(&mut self, spot: Spot, ahead: usize) -> bool {
        let from = self.next.saturating_add(ahead);
        if self.sought < from {
            return false;
        }
        self.spot = spot;
        self.from = from;
        true
    }

    /// The size of the entry of the pool that stands ahead, by its tag (JVMS 4.4). One with a tag that there isn't goes on to the end.
    fn entry_size(&self, tag: usize) -> usize {
        match tag {
            1 => self.ahead(1, 2).saturating_add(3),
            5 | 6 => 9,
            3 | 4 | 9 | 10 | 11 | 12 | 18 => 5,
            7 | 8 | 16 => 3,
            15 => 4,
            _ => usize::MAX,
        }
    }

    /// Passes the entries of the pool in front of an index, marks them, and says whether one may stand there: none stands at index 0, and a
    /// long or a double takes two indices (JVMS 4.4.5).
    fn pass_entries(&mut self, count: usize) -> bool {
        let mut none = 0;
        self.next = 10;
        for index in 0..count {
            if index != none {
                self.mark(Spot::Entry(index), 0);
                if self.ahead(0, 7) == CODE {
                    self.code = index;
                }
                let tag = self.ahead(0, 1);
                if tag == 5 || tag == 6 {
                    none = index.saturating_add(1);
                }
                self.next = self.next.saturating_add(self.entry_size(tag));
            }
        }
        count != none
    }

    /// The text at an index of the pool, empty where none is there.
    pub fn text(mut self, index: usize) -> &'a [u8] {
        let is_there = index < number_at(self.file, 8, 2) && self.pass_entries(index);
        if !is_there || self.ahead(0, 1) != 1 {
            return b"";
        }
        let start = self.next.saturating_add(3);
        let end = start.saturating_add(self.ahead(1, 2));
        self.file.get(start..end).unwrap_or(b"")
    }

    /// Passes an attribute of a member, and marks the code in it, where it is a Code (JVMS 4.7.3).
    fn mark_attribute(&mut self, member: Spot) {
        if self.ahead(0, 2) == self.code {
            self.mark(Spot::Code, 14);
            self.mark(member, self.ahead(10, 4).saturating_add(14));
        }
        self.next = self.next.saturating_add(self.ahead(2, 4).saturating_add(6));
    }

    /// Marks a member, with its flags, its name, its descriptor and its attributes.
    fn mark_member(&mut self, member: Spot) {
        if self.mark(member, 0) {
            self.name = self.ahead(2, 2);
            self.desc = self.ahead(4, 2);
        }
        let count = self.ahead(6, 2);
        self.next = self.next.saturating_add(8);
        for _ in 0..count {
            self.mark_attribute(member);
        }
    }

    fn mark_members(&mut self, member: Spot) {
        let count = self.ahead(0, 2);
        self.next = self.next.saturating_add(2);
        for _ in 0..count {
            self.mark_member(member);
        }
    }

    /// A file's outline, with the part in which a byte stands.
    pub fn of(file: &'a [u8], sought: usize) -> Outline<'a> {
        let mut outline = Outline {
            file,
            next: 10,
            code: usize::MAX,
            sought,
            spot: Spot::Head,
            from: 0,
            name: 0,
            desc: 0,
        };
        outline.pass_entries(number_at(file, 8, 2));
        outline.mark(Spot::Class, 0);
        let faces = outline.ahead(6, 2).saturating_mul(2);
        outline.next = outline.next.saturating_add(faces).saturating_add(8);
        outline.mark_members(Spot::Field);
        outline.mark_members(Spot::Method);
        outline.mark(Spot::Behind, 0);
        outline
    }
}
