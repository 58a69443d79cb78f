ghost use Rattle.std.specs.Prelude.{◌≡◌, ◌↔◌, [], IfSome, IsTrue};
ghost use Rattle.std.specs.List.{Contains};
ghost use Rattle.std.specs.Option.{is_none};
ghost use Rattle.jthreads.specs.Schedule.{picked};
ghost use Rattle.jthreads.specs.ProofNames.{number_at};

use std::collections::VecDeque;

/// The schedule's number at a place, or 0 behind its end.
fn number_of(schedule: &[u32], taken: u64) -> u32
    ensures { result ≡ number_at schedule.now taken }
{
    schedule.get(taken as usize).copied().unwrap_or(0)
}

/// Which of the runnable threads runs next. None exactly where `runnable` is empty.
pub(crate) fn pick(schedule: &[u32], taken: u64, runnable: &VecDeque<u32>) -> Option<u32>
    ensures value { result ≡ picked schedule.now taken runnable.now.items }
    ensures none { IsTrue (is_none result) ↔ (runnable.now.items ≡ []) }
    ensures member { IfSome result (λ t. Contains runnable.now.items t) }
{
    if runnable.is_empty() {
        return None;
    }
    let place = number_of(schedule, taken) as usize % runnable.len();
    Some(runnable[place])
}
