ghost use Rattle.std.specs.Prelude.{◌≡◌, IfOk, map, option_map};
ghost use Rattle.jparts.specs.jcode.InstructionForms.{form};
ghost use Rattle.jparts.specs.jcode.Instructions.{Rises};
ghost use Rattle.jresolution.specs.juses.InstructionMeanings.{meaning_of, meant};
ghost use Rattle.jresolution.specs.juses.PoolTables.{pool_at};
ghost use Rattle.jresolution.specs.juses.InternedTypes.{class_named};
ghost use Rattle.jresolution.specs.juses.EntryUses.{AreUses};
ghost use Rattle.jtyping.specs.jwelltyped.MethodPremises;
ghost use Rattle.jtyping.specs.jwelltyped.ProofNames;
ghost use Rattle.jverify.specs.NewInstructions.{AreNews, made_at};

use jground::jbase::Seq;
use jparts::jcode::{Op, OpForm, Placed, PoolForm, form_of, place_of};
use jresolution::jprogram::{ClassRef, NamedProgram};
use jresolution::juses::{Use, Uses};
use jtyping::jrule::News;
use std::alloc::{AllocError, Global};
use std::marker::Model;

/// The `new`s of a method: of each of its instructions the class that it makes.
#[derive(Drop)]
pub(crate) struct MethodNews<'a> {
    ops: &'a [Placed],
    made: Seq<Option<ClassRef>>,
}

impl<'a> Model for MethodNews<'a> {
    ghost use Rattle.jparts.specs.jcode.Instructions.{Rises};
    ghost use Rattle.jverify.specs.NewInstructions.{Made};

    ghost Value = { Made };

    ghost view = { λ n. record { ops = n.ops.now; made = n.made } };

    ghost invariant = { λ n. Rises n.ops.now };
}

impl<'a> News for MethodNews<'a> {
    ghost use Rattle.jverify.specs.NewInstructions.{made_at};

    ghost makes = { made_at };

    fn made_at(&self, at: u16) -> Option<ClassRef> {
        let i = place_of(self.ops, u32::from(at))?;
        match self.made.as_slice().get(i) {
            Some(one) => *one,
            None => None,
        }
    }
}

// ---- of a method

/// What an instruction by an entry of the pool means in its class.
fn use_of(p: &NamedProgram, uses: &Uses, class: u32, form: PoolForm) -> Option<Use>
    requires { AreUses p.now uses.now }
    ensures { option_map (meaning_of p.now (pool_at p.now class) uses.now.types) result ≡ meant p.now (pool_at p.now class) form }
{
    uses.use_at(class, form)
}

/// The class of what is made by such a use.
fn made_of(p: &NamedProgram, uses: &Uses, class: u32, found: Option<Use>) -> Option<ClassRef>
    ensures { option_map (class_named p.now) result ≡ ProofNames.made_by (option_map (meaning_of p.now (pool_at p.now class) uses.now.types) found) }
{
    match found {
        Some(Use::Make(made)) => Some(made),
        _ => None,
    }
}

/// The class that an instruction of a class makes, if it is a `new`.
fn made_by<S>(p: &NamedProgram, uses: &Uses, class: u32, form: &OpForm<S>) -> Option<ClassRef>
    requires { AreUses p.now uses.now }
    ensures { option_map (class_named p.now) result ≡ MethodPremises.made p.now (pool_at p.now class) form.now }
{
    match form {
        OpForm::Pool(PoolForm::New(i)) => {
            let found = use_of(p, uses, class, PoolForm::New(*i));
            made_of(p, uses, class, found)
        }
        _ => None,
    }
}

/// The same of an instruction.
#[tactic(auto, using(crate::proofs::NewSites::made_seen))]
fn made_in(p: &NamedProgram, uses: &Uses, class: u32, op: &Op) -> Option<ClassRef>
    requires { AreUses p.now uses.now }
    ensures { option_map (class_named p.now) result ≡ MethodPremises.made p.now (pool_at p.now class) (form op.now) }
{
    made_by(p, uses, class, &form_of(op))
}

/// The class of what each instruction makes, if it is a `new`.
fn all_made(
    alloc: Global,
    p: &NamedProgram,
    uses: &Uses,
    class: u32,
    ops: &[Placed],
) -> Result<Seq<Option<ClassRef>>, AllocError>
    requires { AreUses p.now uses.now }
    ensures { IfOk result
        (λ made. map (option_map (class_named p.now)) made ≡ map (λ one. MethodPremises.made p.now (pool_at p.now class) (form one.op)) ops.now) }
{
    let mut made = Seq::new(alloc);
    for one in ops {
        made.push(made_in(p, uses, class, &one.op))?;
    }
    Ok(made)
}

/// The `new`s of a method of a class.

pub(crate) fn news_of<'a>(
    alloc: Global,
    p: &NamedProgram,
    uses: &Uses,
    class: u32,
    ops: &'a [Placed],
) -> Result<MethodNews<'a>, AllocError>
    requires uses { AreUses p.now uses.now }
    requires rises { Rises ops.now }
    ensures { IfOk result (λ n. AreNews p.now (pool_at p.now class) ops.now (made_at n)) }
{
    Ok(MethodNews {
        ops,
        made: all_made(alloc, p, uses, class, ops)?,
    })
}
