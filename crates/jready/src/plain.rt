ghost use Rattle.std.specs.Prelude.{◌≡◌, IfOk, Some};
ghost use Rattle.jresolution.specs.juses.IndexedInstructions;
ghost use Rattle.jready.specs.CodeLayout.{PlainWithin};
ghost use Rattle.jready.specs.DecodedInstructions.{plain_meant};
ghost use Rattle.jready.specs.TableGrowth.{Grown};

use crate::instr::OperandOp;
use crate::tables::Tables;
use jparts::jcode::Simple;
use std::alloc::AllocError;

/// What computes with operands alone, by number.
pub(crate) fn plain_of(tables: &mut Tables, form: Simple) -> Result<OperandOp, AllocError>
    ensures means { IfOk result (λ f. plain_meant tables.new f ≡ Some (IndexedInstructions.Simple form)) }
    ensures within { IfOk result (PlainWithin tables.new) }
    ensures grown { IfOk result (λ f. Grown tables.old tables.new) }
{
    match form {
        Simple::Nothing => Ok(OperandOp::Nothing),
        Simple::Null => Ok(OperandOp::Null),
        Simple::Int(n) => Ok(OperandOp::Int(n)),
        Simple::Long(n) => {
            let number = tables.put_long(n)?;
            Ok(OperandOp::Long(number))
        }
        Simple::Two(op) => Ok(OperandOp::Two(op)),
        Simple::Divide(op) => Ok(OperandOp::Divide(op)),
        Simple::One(op) => Ok(OperandOp::One(op)),
    }
}
