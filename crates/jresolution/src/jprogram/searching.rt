ghost use Rattle.std.specs.Prelude.{◌≡◌, ◌++◌, None, IfOk, OnOk, length, option_map};
ghost use Rattle.jground.specs.jbase.FirstFaults.{first_some};
ghost use Rattle.jresolution.specs.jprogram.ProgramClasses;
ghost use Rattle.jresolution.specs.jprogram.InterfaceSearch;
ghost use Rattle.jresolution.specs.jprogram.InterfaceSearch.{AreClosed, IsLayered, waiting_names};
ghost use Rattle.jresolution.specs.jprogram.FoundClasses.{seen};
ghost use Rattle.jresolution.specs.jprogram.ProgramClasses.{faces_of};

use crate::jprogram::classes::NamedProgram;
use crate::jprogram::found_class::FoundClass;
use crate::jprogram::member::Member;
use jground::jbase::Seq;
use std::alloc::{AllocError, Global};

/// What is looked for: a method or a field.
#[derive(Clone, Copy, Debug, PartialEq, Eq)]
pub enum Sort {
    Method,
    Field,
}

/// Puts the interfaces that a class lists in front of those that are waiting: behind them, the first one last.
fn put_faces<'a>(waiting: &mut Vec<&'a [u8]>, class: FoundClass<'a>) -> Result<(), AllocError>
    ensures { OnOk result (waiting_names waiting.new.items ≡ ProgramClasses.faces (seen class.entry) ++ waiting_names waiting.old.items) }
{
    let mut k = class.face_count();
    while 0 < k {
        k -= 1;
        let Some(face) = class.face(k) else {
            return Ok(());
        };
        waiting.push(face)?;
    }
    Ok(())
}

pub fn put_faces_of<'a>(
    waiting: &mut Vec<&'a [u8]>,
    class: Option<FoundClass<'a>>,
) -> Result<(), AllocError>
    ensures { OnOk result (waiting_names waiting.new.items ≡ faces_of (option_map seen class.entry) ++ waiting_names waiting.old.items) }
{
    match class {
        Some(class) => put_faces(waiting, class),
        None => Ok(()),
    }
}

impl NamedProgram {
    fn member_at(&self, sort: Sort, name: &[u8], desc: &[u8], class: &[u8]) -> Option<Member>
        ensures { result ≡ InterfaceSearch.member_at self.now sort name.now desc.now class.now }
    {
        match sort {
            Sort::Method => self.method_in(name, desc, class),
            Sort::Field => self.field_in(name, desc, class),
        }
    }

    pub(crate) fn is_closed(&self, closed: &[bool], name: &[u8]) -> bool
        ensures { result ≡ InterfaceSearch.is_closed self.now closed.now name.now }
    {
        let Some(i) = self.place_of(name) else {
            return false;
        };
        match closed.get(i as usize) {
            Some(one) => *one,
            None => false,
        }
    }

    pub(crate) fn close(&self, closed: &mut Seq<bool>, name: &[u8])
        requires { length closed.old ≡ length self.now.parts }
        ensures { closed.new ≡ InterfaceSearch.closing self.now closed.old name.now }
    {
        if let Some(i) = self.place_of(name) {
            closed.set(i as usize, true);
        }
    }

    /// The first member of this name and descriptor in the interfaces of the class of a name, direct and through others, where those
    /// that are marked have none. Each is gone through once.
    pub(crate) fn search<'a>(
        &'a self,
        alloc: Global,
        sort: Sort,
        name: &[u8],
        desc: &[u8],
        closed: &mut Seq<bool>,
        class: &[u8],
    ) -> Result<Option<Member>, AllocError>
        requires layered { IsLayered self.now }
        requires closed { AreClosed self.now (InterfaceSearch.member_at self.now sort name.now desc.now) closed.old }
        ensures value { IfOk result
            (λ m. m ≡ first_some (InterfaceSearch.member_at self.now sort name.now desc.now) (ProgramClasses.superinterfaces self.now class.now)) }
        ensures kept { IfOk result (λ m. m ≡ None → AreClosed self.now (InterfaceSearch.member_at self.now sort name.now desc.now) closed.new) }
    {
        let mut waiting: Vec<&'a [u8]> = Vec::new(alloc);
        put_faces_of(&mut waiting, self.find(class))?;
        while let Some(face) = waiting.pop() {
            if self.is_closed(closed.as_slice(), face) {
                continue;
            }
            if let Some(found) = self.member_at(sort, name, desc, face) {
                return Ok(Some(found));
            }
            self.close(closed, face);
            put_faces_of(&mut waiting, self.find(face))?;
        }
        Ok(None)
    }
}
