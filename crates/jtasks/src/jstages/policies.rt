ghost use Rattle.std.specs.Prelude.{◌≡◌, ◌<◌, ◌^◌, [], IfOk, IfSome, Some, length};
ghost use Rattle.jjob.specs.Jobs.{job};
ghost use Rattle.jpolicy.specs.Policies.{policy};
ghost use Rattle.jtasks.specs.jstages.ReadStage.{place_of_fault};

use jground::jbase::FaultOrMemory;
use jjob::{Text, read_job};
use jpolicy::read_policy;
use std::alloc::{AllocError, Global};

/// The path of the policy that a job of this text names. None where it names none, is no job, or no memory was left.
pub(crate) fn policy_path(alloc: Global, text: &[u8]) -> Option<Text>
    requires { length text.now < 2 ^ 31 }
    ensures { IfSome result (λ path. IfOk (job text.now) (λ j. j.policy ≡ Some path)) }
{
    match read_job(alloc, text) {
        Ok(job) => job.policy,
        Err(_) => None,
    }
}

/// The byte at which a policy's text has its first fault. None where it has none, whatever its properties stand for.
pub fn policy_fault(alloc: Global, text: &[u8]) -> Result<Option<u32>, AllocError>
    requires { length text.now < 2 ^ 31 }
    ensures { IfOk result (λ at. at ≡ place_of_fault (policy [] text.now)) }
{
    match read_policy(alloc, text, &[]) {
        Ok(_) => Ok(None),
        Err(FaultOrMemory::Fault(fault)) => Ok(Some(fault.at)),
        Err(FaultOrMemory::Memory) => Err(AllocError),
    }
}
