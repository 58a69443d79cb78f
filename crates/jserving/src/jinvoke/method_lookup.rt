ghost use Rattle.std.specs.Prelude.{◌≡◌, false};
ghost use Rattle.jlinking.specs.jlink.LinkedPrograms.{Links};
ghost use Rattle.jsemantics.specs.jmachine.Unwinding;
ghost use Rattle.jsemantics.specs.jmachine.World;
ghost use Rattle.jsemantics.specs.jmachine.World.{fits, own_tree, world};
ghost use Rattle.jtypes.specs.Assignability.{class_fits};
ghost use Rattle.jtyping.specs.jrule.PoolEffects.{throwable};
ghost use Rattle.jtypes.specs.declared.vtype.ArrayType.{ArrayType};
ghost use Rattle.jtypes.specs.declared.vtype.VType.TheVariants as types;
ghost use Rattle.jresolution.specs.juses.InstructionMeanings.{class_at};
ghost use Rattle.jresolution.specs.juses.PoolTables.{pool_at};
ghost use Rattle.jresolution.specs.juses.InternedTypes.{class_named, named};

use crate::jfits::{Ancestors, is_instance};
use jlinking::jlink::LinkedProgram;
use jready::Ready;
use jresolution::jprogram::{ClassRef, number_laws};
use jresolution::juses::TypeRef;
use std::marker::Model;

/// A program, as it is asked where its methods are called and where something is thrown. Contracts see the program.
#[derive(Drop)]
pub struct MethodLookup<'p> {
    program: &'p LinkedProgram,
    /// The same, with its methods by number.
    ready: &'p Ready<'p>,
    /// What stands above its classes.
    ancestors: &'p Ancestors<'p>,
}

impl<'p> Model for MethodLookup<'p> {
    ghost use Rattle.std.specs.Prelude.{◌≡◌};
    ghost use Rattle.jlinking.specs.jlink.LinkedPrograms.{Links};
    ghost use Rattle.jresolution.specs.jprogram.ProgramClasses.{Program};

    ghost Value = { Program };

    ghost view = { λ k. k.program.now };

    ghost invariant = { λ k. Links k.program.now × ((k.ready.now.program ≡ k.program.now) × (k.ancestors.now ≡ k.program.now)) };
}

impl<'p> MethodLookup<'p> {
    /// What is known of a program that is ready, with what stands above its classes.
    pub fn of(ready: &'p Ready<'p>, ancestors: &'p Ancestors<'p>) -> MethodLookup<'p>
        requires { ancestors.now ≡ ready.now.program }
        ensures { result ≡ ready.now.program }
    {
        let program = ready.program();
        program.named();
        MethodLookup {
            program,
            ready,
            ancestors,
        }
    }

    /// Its methods by number.
    pub fn ready(&self) -> &'p Ready<'p>
        ensures { result.now.program ≡ self.now }
    {
        self.ready
    }

    /// The program.
    pub fn program(&self) -> &'p LinkedProgram
        ensures { result.now ≡ self.now }
    {
        self.program
    }

    /// The law of what is thrown: no array can be. It has no body to run; its contract is the law.
    pub fn array_law(&self)
        ensures { (a : ArrayType) → fits (world self.now) (types.Array a) throwable ≡ false }
    {
        number_laws();
        self.program.named();
    }

    /// Whether an object of a class is one of a type.
    #[tactic(auto, unfolding(jsemantics::specs::jmachine::World::world))]
    pub fn is_instance(&self, class: ClassRef, t: TypeRef) -> bool
        ensures { result ≡ World.is_instance (world self.now) (types.Object (class_named self.now class)) (named self.now t) }
    {
        is_instance(self.ancestors, TypeRef::Object(class), t)
    }

    /// Whether an object of the first class is one of the second, which is its class, or one above it, or an interface of one of them.
    pub fn is_of(&self, class: ClassRef, other: ClassRef) -> bool
        ensures { result ≡ class_fits (own_tree (world self.now)) (class_named self.now class) (class_named self.now other) }
    {
        self.is_instance(class, TypeRef::Object(other))
    }

    /// Whether a handler of the class at an index of a part's pool catches an object of a class.
    #[tactic(auto, using(crate::proofs::JinvokeProofs::ClassMembership::caught_none, crate::proofs::JinvokeProofs::ClassMembership::caught_some))]
    pub fn is_caught(&self, thrown: ClassRef, class: u32, pool: u16) -> bool
        ensures { result ≡ Unwinding.is_caught self.now (types.Object (class_named self.now thrown))
            (class_at self.now (pool_at self.now class) pool) }
    {
        match self.program.uses().class_at(class, pool) {
            None => false,
            Some(t) => self.is_instance(thrown, t),
        }
    }
}
