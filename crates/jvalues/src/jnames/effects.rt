ghost use Rattle.std.specs.Prelude.{◌≡◌};
ghost use Rattle.jvalues.specs.jnames.Effects.{division_effect, gives, one_effect, takes, two_effect};

use crate::jnames::kinds::{Effect, Kind, Kinds};
use crate::jnames::names::{Division, OpOne, OpTwo};

impl Effect {
    /// What takes these operands and puts one of this kind.
    pub fn giving(kinds: Kinds, kind: Kind) -> Effect
        ensures { result ≡ gives kinds kind }
    {
        Effect {
            takes: kinds,
            gives: Some(kind),
        }
    }

    /// What takes these operands and puts none.
    pub fn taking(kinds: Kinds) -> Effect
        ensures { result ≡ takes kinds }
    {
        Effect {
            takes: kinds,
            gives: None,
        }
    }
}

impl OpTwo {
    /// The kinds that the instruction takes and gives.
    pub fn effect(self) -> Effect
        ensures { result ≡ two_effect self }
    {
        let (older, newer, kind) = match self {
            OpTwo::Iadd | OpTwo::Isub | OpTwo::Imul => (Kind::Int, Kind::Int, Kind::Int),
            OpTwo::Ishl | OpTwo::Ishr | OpTwo::Iushr => (Kind::Int, Kind::Int, Kind::Int),
            OpTwo::Iand | OpTwo::Ior | OpTwo::Ixor => (Kind::Int, Kind::Int, Kind::Int),
            OpTwo::Ladd | OpTwo::Lsub | OpTwo::Lmul => (Kind::Long, Kind::Long, Kind::Long),
            OpTwo::Land | OpTwo::Lor | OpTwo::Lxor => (Kind::Long, Kind::Long, Kind::Long),
            OpTwo::Lshl | OpTwo::Lshr | OpTwo::Lushr => (Kind::Long, Kind::Int, Kind::Long),
            OpTwo::Lcmp => (Kind::Long, Kind::Long, Kind::Int),
        };
        Effect::giving(Kinds::Two(newer, older), kind)
    }
}

impl OpOne {
    /// The kinds that the instruction takes and gives.
    pub fn effect(self) -> Effect
        ensures { result ≡ one_effect self }
    {
        match self {
            OpOne::Ineg => Effect::giving(Kinds::One(Kind::Int), Kind::Int),
            OpOne::Lneg => Effect::giving(Kinds::One(Kind::Long), Kind::Long),
            OpOne::I2l => Effect::giving(Kinds::One(Kind::Int), Kind::Long),
            OpOne::L2i => Effect::giving(Kinds::One(Kind::Long), Kind::Int),
            OpOne::I2b => Effect::giving(Kinds::One(Kind::Int), Kind::Int),
            OpOne::I2c => Effect::giving(Kinds::One(Kind::Int), Kind::Int),
            OpOne::I2s => Effect::giving(Kinds::One(Kind::Int), Kind::Int),
        }
    }
}

impl Division {
    /// The kinds that the instruction takes and gives.
    pub fn effect(self) -> Effect
        ensures { result ≡ division_effect self }
    {
        match self {
            Division::Idiv => Effect::giving(Kinds::Two(Kind::Int, Kind::Int), Kind::Int),
            Division::Irem => Effect::giving(Kinds::Two(Kind::Int, Kind::Int), Kind::Int),
            Division::Ldiv => Effect::giving(Kinds::Two(Kind::Long, Kind::Long), Kind::Long),
            Division::Lrem => Effect::giving(Kinds::Two(Kind::Long, Kind::Long), Kind::Long),
        }
    }
}
