ghost use Rattle.std.specs.Prelude.{◌⊎◌, ◌≡◌, ◌+◌, ◌^◌, ◌<◌, ◌≤◌, ℕ, IfOk, IfSome, None, OnOk, Some, length, slice_get};
ghost use Rattle.jtypes.specs.declared.vtype.VType.{VType};
ghost use Rattle.jresolution.specs.juses.IndexedInstructions;
ghost use Rattle.jresolution.specs.juses.InstructionMeanings.{spanned};
ghost use Rattle.jresolution.specs.juses.PoolTables.{Grows, pool_at};
ghost use Rattle.jresolution.specs.jlayout.LayoutTables.{AreLayouts};
ghost use Rattle.jresolution.specs.jlayout.InternedFields.{all_statics};
ghost use Rattle.jsemantics.specs.jmachine.MachineSteps.{fetched};
ghost use Rattle.jsemantics.specs.jmachine.Unwinding.{handler_at};
ghost use Rattle.jready.specs.InlineOperands.{Exact, IsNumbered};
ghost use Rattle.jready.specs.HandlerTables.{handled};
ghost use Rattle.jready.specs.ProgramFacts.{IsKnown};
ghost use Rattle.jready.specs.CodeLayout.{Within};
ghost use Rattle.jready.specs.DecodedInstructions.{meant};
ghost use Rattle.jready.specs.MethodTables.{AreMethods};
ghost use Rattle.jready.specs.MethodNumbers.{AreFirsts};
ghost use Rattle.jready.specs.PreparedPrograms.{AreNumbered, AreOwn, IsNumber, IsRow};
ghost use Rattle.jready.specs.ClassShapes.{IsShape};
ghost use Rattle.jready.specs.Statics.{AreStatics};

use crate::handlers::HandlerRow;
use crate::instr::Instr;
use crate::methods::{MethodRow, Methods};
use crate::program_info::ProgramInfo;
use crate::shapes::{Shape, shapes_of};
use crate::statics::{StaticRow, statics_of};
use crate::tables::{Tables, next_number};
use jground::jbase::Seq;
use jlinking::jlink::LinkedProgram;
use jresolution::jlayout::Layouts;
use jresolution::jprogram::MethodId;
use jresolution::juses::{Span, TypeRef, Uses};
use std::alloc::{AllocError, Global};
use std::marker::Model;

/// A program that is ready to be executed: its instructions by number, one method behind the other, and what they name by number.
#[derive(Drop)]
pub struct Ready<'p> {
    program: &'p LinkedProgram,
    uses: &'p Uses,
    layouts: Layouts,
    /// Of each class what its objects hold.
    shapes: Seq<Shape>,
    statics: Seq<StaticRow>,
    /// Of each class the number of its first method.
    firsts: Seq<u32>,
    methods: Methods,
}

impl<'p> Model for Ready<'p> {
    ghost use Rattle.jready.specs.PreparedPrograms.{IsReady, Prepared};

    ghost Value = { Prepared };

    ghost view = { λ r. record {
      program = r.program.now;
      uses = r.uses.now;
      layouts = r.layouts;
      shapes = r.shapes;
      statics = r.statics;
      firsts = r.firsts;
      methods = r.methods;
    } };

    ghost invariant = { λ r. IsReady (record {
      program = r.program.now;
      uses = r.uses.now;
      layouts = r.layouts;
      shapes = r.shapes;
      statics = r.statics;
      firsts = r.firsts;
      methods = r.methods;
    }) };
}

/// Where the fields of a program stand.
fn layouts_of(alloc: Global, p: &LinkedProgram) -> Result<Layouts, AllocError>
    ensures ok { IfOk result (AreLayouts p.now) }
    ensures few { length p.now.parts ≤ 0xffff }
{
    Layouts::of(alloc, p.named())
}

/// The number behind some methods, where there are so many more.
fn number_behind(first: u32, more: usize) -> Result<u32, AllocError>
    ensures sum { IfOk result (λ n. n ≡ first + more) }
    ensures room { IfOk result (λ n. n < 2 ^ 32) }
{
    let more = next_number(more)?;
    match first.checked_add(more) {
        Some(n) => Ok(n),
        None => Err(AllocError),
    }
}

/// The number of the first method of each class.
fn firsts_of(alloc: Global, p: &LinkedProgram) -> Result<Seq<u32>, AllocError>
    ensures { IfOk result (AreFirsts p.now) }
{
    let mut firsts = Seq::new(alloc);
    let mut first = 0u32;
    for part in p.parts() {
        let behind = number_behind(first, part.class.parts().methods.as_slice().len())?;
        firsts.push(first)?;
        first = behind;
    }
    Ok(firsts)
}

fn row_at(rows: &[MethodRow], k: u32) -> Option<MethodRow>
    ensures { result ≡ slice_get rows.now k }
{
    rows.get(k as usize).copied()
}

/// The number of a method, if a row behind the first one of its class has it.
fn number_in(firsts: &[u32], rows: &[MethodRow], m: MethodId) -> Option<u32>
    ensures found { IfSome result (λ k. IsNumber rows.now k m) }
    ensures none { result ≡ None → (first : ℕ) → slice_get firsts.now m.class ≡ Some first → first + m.method < 2 ^ 32
        → IsNumber rows.now (first + m.method) m → ⊥ }
{
    let Some(first) = firsts.get(m.class as usize) else {
        return None;
    };
    let Some(k) = first.checked_add(m.method) else {
        return None;
    };
    let Some(row) = row_at(rows, k) else {
        return None;
    };
    if row.id == m {
        return Some(k);
    }
    None
}

/// Puts the methods of a class behind others.
fn put_class(
    alloc: Global,
    known: &ProgramInfo<'_>,
    methods: &mut Methods,
    class: u32,
    count: u32,
) -> Result<(), AllocError>
    requires known { IsKnown known.now }
    requires are { AreMethods known.now.p.now known.now.uses.now.types methods.old }
    ensures are { OnOk result (AreMethods known.now.p.now known.now.uses.now.types methods.new) }
    ensures count { OnOk result (length methods.new.rows ≡ length methods.old.rows + count) }
    ensures behind { OnOk result (Grows methods.old.rows methods.new.rows) }
    ensures own { OnOk result (AreOwn methods.new.rows (length methods.old.rows) class count) }
{
    for method in 0..count {
        methods.put(alloc, known, MethodId { class, method })?;
    }
    Ok(())
}

/// All methods of a program.
fn methods_of(alloc: Global, known: &ProgramInfo<'_>) -> Result<Methods, AllocError>
    requires known { IsKnown known.now }
    ensures are { IfOk result (AreMethods known.now.p.now known.now.uses.now.types) }
    ensures numbered { IfOk result (λ m. AreNumbered known.now.p.now m.rows (length known.now.p.now.parts)) }
{
    let mut methods = Methods::new(alloc);
    let parts = known.p.parts();
    for (i, part) in parts.iter().enumerate() {
        let class = next_number(i)?;
        let count = next_number(part.class.parts().methods.as_slice().len())?;
        put_class(alloc, known, &mut methods, class, count)?;
    }
    Ok(methods)
}

impl<'p> Ready<'p> {
    /// Makes a program ready, once and for all: in as many steps as it has bytes, but for the searches of its branches.
    pub fn of(alloc: Global, program: &'p LinkedProgram) -> Result<Ready<'p>, AllocError>
        ensures { IfOk result (λ r. r.program ≡ program.now) }
    {
        let uses = program.uses();
        let layouts = layouts_of(alloc, program)?;
        let shapes = shapes_of(alloc, program, &layouts)?;
        let statics = statics_of(alloc, program)?;
        let firsts = firsts_of(alloc, program)?;
        let known = ProgramInfo {
            p: program,
            uses,
            layouts: &layouts,
            methods: firsts.as_slice(),
        };
        let methods = methods_of(alloc, &known)?;
        Ok(Ready {
            program,
            uses,
            layouts,
            shapes,
            statics,
            firsts,
            methods,
        })
    }

    /// The program.
    pub fn program(&self) -> &'p LinkedProgram
        ensures { result.now ≡ self.now.program }
    {
        self.program
    }

    /// Where the fields of the program stand.
    pub fn layouts(&self) -> &Layouts
        ensures { AreLayouts self.now.program result.now }
    {
        &self.layouts
    }

    /// What the objects of the user's class at a place hold.
    #[inline]
    pub fn shape(&self, class: u32) -> Shape
        requires { class < length self.now.program.parts }
        ensures { IsShape self.now.program class result }
    {
        self.shapes.as_slice()[class as usize]
    }

    /// The statics of the program, in their order: each where it has its place among them.
    pub fn statics(&self) -> &[StaticRow]
        ensures { AreStatics self.now.program (all_statics self.now.program) result.now }
    {
        self.statics.as_slice()
    }

    /// What instructions name by number.
    #[inline]
    pub fn tables(&self) -> &Tables
        ensures { result.now ≡ self.now.methods.tables }
    {
        &self.methods.tables
    }

    /// The types of a method's parameters, by where an instruction says that they stand, the newest first.
    #[inline]
    pub fn params(&self, span: Span) -> &[TypeRef]
        ensures { result.now ≡ spanned self.now.uses.types span }
    {
        self.uses.params(span)
    }

    /// A method of a number.
    #[inline]
    pub fn method(&self, k: u32) -> MethodRow
        requires { k < length self.now.methods.rows }
        ensures { Some result ≡ slice_get self.now.methods.rows k }
    {
        self.methods.rows.as_slice()[k as usize]
    }

    /// The same, by the number that a call holds: it is that of the method which is called.
    #[inline]
    pub fn called(&self, k: u32) -> Option<MethodRow>
        ensures row { result ≡ slice_get self.now.methods.rows k }
        ensures number { (m : MethodId) → IsNumbered self.now.program k m → IsNumber self.now.methods.rows k m }
    {
        row_at(self.methods.rows.as_slice(), k)
    }

    /// The number of a user's method. None only of one that has no code.
    pub fn number_of(&self, m: MethodId) -> Option<u32>
        ensures found { IfSome result (λ k. IsNumber self.now.methods.rows k m) }
        ensures none { result ≡ None → IndexedInstructions.code_at self.now.program m ≡ None }
    {
        number_in(self.firsts.as_slice(), self.methods.rows.as_slice(), m)
    }

    /// The instruction of a method at a place, or the one behind all of them: that for which the machine looks there.
    #[inline]
    pub fn instr(&self, method: &MethodRow, place: u32) -> Instr
        requires row { IsRow self.now method.now }
        requires place { place ≤ method.now.count }
        ensures means { meant self.now.program self.now.methods.tables method.now.id.class result ≡ fetched self.now.program method.now.id place }
        ensures within { Within self.now.methods.tables result }
        ensures exact { Exact self.now.program self.now.uses.types self.now.methods.tables method.now.id.class result }
    {
        self.methods.code.as_slice()[method.first as usize + place as usize]
    }

    /// The same at any place: behind the method's instructions there is no step. Where there is one, a number may stand behind it.
    #[inline]
    pub fn fetch(&self, method: &MethodRow, place: u32) -> Instr
        requires { IsRow self.now method.now }
        ensures means { meant self.now.program self.now.methods.tables method.now.id.class result ≡ fetched self.now.program method.now.id place }
        ensures within { Within self.now.methods.tables result }
        ensures exact { Exact self.now.program self.now.uses.types self.now.methods.tables method.now.id.class result }
        ensures next { (result ≡ Instr.Off) ⊎ (place + 1 < 2 ^ 32) }
    {
        if place >= method.count {
            return self.behind(method, place);
        }
        self.instr(method, place)
    }

    /// There is no step behind a method's instructions.
    #[inline]
    fn behind(&self, method: &MethodRow, place: u32) -> Instr
        requires row { IsRow self.now method.now }
        requires place { method.now.count ≤ place }
        ensures off { result ≡ Instr.Off }
        ensures means { meant self.now.program self.now.methods.tables method.now.id.class result ≡ fetched self.now.program method.now.id place }
    {
        let _ = self.methods.code.as_slice();
        Instr::Off
    }

    /// The row of a user's method. None only of one that has no code, so that there is no step in it.
    #[tactic(auto, using(crate::proofs::FetchedInstructions::fetched_none))]
    pub fn row_of(&self, m: MethodId) -> Option<MethodRow>
        ensures found { IfSome result (λ row. IsRow self.now row × (row.id ≡ m)) }
        ensures none { result ≡ None → (place : ℕ) → fetched self.now.program m place ≡ None }
        ensures bare { result ≡ None → IndexedInstructions.code_at self.now.program m ≡ None }
    {
        match self.number_of(m) {
            Some(k) => self.called(k),
            None => None,
        }
    }

    /// The handlers of a method, in their order. What is thrown behind its instructions it doesn't handle.
    pub fn handlers(&self, method: &MethodRow) -> &[HandlerRow]
        requires { IsRow self.now method.now }
        ensures within { (thrown : VType) (place : ℕ) → place < method.now.count
            → handler_at self.now.program thrown method.now.id place
            ≡ handled self.now.program (pool_at self.now.program method.now.id.class) thrown place result.now }
        ensures behind { (thrown : VType) (place : ℕ) → method.now.count ≤ place → handler_at self.now.program thrown method.now.id place ≡ None }
    {
        let rows = self.methods.handlers.as_slice();
        let (_, behind) = rows.split_at(method.handlers.first as usize);
        let (own, _) = behind.split_at(method.handlers.count as usize);
        own
    }
}
