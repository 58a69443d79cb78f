ghost use Rattle.std.specs.Prelude.{◌≡◌, ◌+◌, IfOk, cond, length};
ghost use Rattle.std.specs.List.{filter};
ghost use Rattle.jresolution.specs.jlayout.FieldLayout;
ghost use Rattle.jresolution.specs.jlayout.FieldSlots;
ghost use Rattle.jresolution.specs.jlayout.FieldSlots.{AreSlots};

use crate::jlayout::counts::sum_of;
use crate::jlayout::fields::is_static;
use jclass::MemberInfo;
use jground::jbase::Seq;
use std::alloc::{AllocError, Global};

/// Where the next static of a program stands, and the next field of an object.
#[derive(Clone, Copy)]
pub(crate) struct Next {
    pub statics: u32,
    pub instance: u32,
}

impl Next {
    fn place(self, field: &MemberInfo) -> u32
        ensures { result ≡ FieldSlots.place_by self field.now }
    {
        if is_static(field) {
            return self.statics;
        }
        self.instance
    }

    /// Where those behind a field stand.
    fn past(self, field: &MemberInfo) -> Result<Next, AllocError>
        ensures statics { IfOk result (λ next. next.statics ≡ self.statics + cond (FieldLayout.is_static field.now) 1 0) }
        ensures instance { IfOk result (λ next. next.instance ≡ self.instance + cond (FieldLayout.is_instance field.now) 1 0) }
    {
        if is_static(field) {
            let statics = sum_of(self.statics, 1)?;
            return Ok(Next {
                statics,
                instance: self.instance,
            });
        }
        let instance = sum_of(self.instance, 1)?;
        Ok(Next {
            statics: self.statics,
            instance,
        })
    }
}

/// Of each field of a class where it stands, and where the next static behind them does.
pub(crate) fn slots_of(
    alloc: Global,
    fields: &[MemberInfo],
    first: Next,
) -> Result<(Seq<u32>, u32), AllocError>
    ensures slots { IfOk result (λ both. AreSlots first fields.now both.0) }
    ensures statics { IfOk result (λ both. both.1 ≡ first.statics + length (filter FieldLayout.is_static fields.now)) }
{
    let mut slots = Seq::new(alloc);
    let mut next = first;
    for field in fields {
        slots.push(next.place(field))?;
        next = next.past(field)?;
    }
    Ok((slots, next.statics))
}
