ghost use Rattle.std.specs.Prelude.{◌≡◌, ◌∷◌, [], IfOk};
ghost use Rattle.jthreads.specs.ProofNames.{running};

use crate::words::numbers;
use jthreads::Threads;
use std::alloc::{AllocError, Global};
use tests_rows::Answer;

/// Threads 0 to 8, of which these can run: the others aren't started, and thread 0 waits for itself.
fn table_of(alloc: Global, runnable: &[u32]) -> Result<Threads, AllocError> {
    let mut threads = Threads::open(alloc)?;
    if !runnable.contains(&0) {
        threads.join(0, 0);
    }
    for t in 1..9 {
        let made = threads.add(alloc)?;
        if runnable.contains(&t) {
            threads.start(made);
        }
    }
    Ok(threads)
}

/// Which thread is picked: by a schedule, how many of its numbers were taken, and the threads that can run.
fn picked(words: &str, answer: &mut Answer) {
    let (schedule, rest) = answer.parted(words, " ");
    let (taken, runnable) = answer.parted(rest, " ");
    let taken = answer.number(taken);
    let schedule = numbers(schedule, answer);
    let runnable = numbers(runnable, answer);
    match table_of(answer.alloc(), runnable.as_slice()) {
        Ok(threads) => answer.debug(&threads.pick(schedule.as_slice(), taken)),
        Err(_) => answer.lack(),
    }
}

/// Tells the threads that can run, each picked by its place.
fn tell_runnable(threads: &Threads, answer: &mut Answer) {
    let mut numbers = Vec::new(answer.alloc());
    for place in 0..9u32 {
        match threads.pick(&[place], 0) {
            Some(t) if !numbers.as_slice().contains(&t) => {
                if numbers.push(t).is_err() {
                    answer.lack();
                }
            }
            _ => break,
        }
    }
    answer.spaced(&numbers.as_slice());
}

/// Threads 0 and 1, both started.
fn two(alloc: Global) -> Result<Threads, AllocError>
    ensures { IfOk result (λ threads. threads ≡ running ∷ running ∷ []) }
{
    let mut threads = Threads::open(alloc)?;
    threads.add(alloc)?;
    threads.start(1);
    Ok(threads)
}

/// Threads 0 to 3, all started.
fn four(alloc: Global) -> Result<Threads, AllocError>
    ensures { IfOk result (λ threads. threads ≡ running ∷ running ∷ running ∷ running ∷ []) }
{
    let mut threads = two(alloc)?;
    threads.add(alloc)?;
    threads.add(alloc)?;
    threads.start(2);
    threads.start(3);
    Ok(threads)
}

/// Two threads more, of which one is started, again, and the first one too; then the first waits for the one that wasn't started.
fn starts(answer: &mut Answer) -> Result<(), AllocError> {
    let alloc = answer.alloc();
    let mut threads = Threads::open(alloc)?;
    let one = threads.add(alloc)?;
    let two = threads.add(alloc)?;
    answer.debug_pair(&one, &two);
    tell_runnable(&threads, answer);
    answer.spaced(&threads.start(1));
    answer.spaced(&threads.start(1));
    answer.spaced(&threads.start(0));
    answer.spaced(&threads.join(0, 2));
    tell_runnable(&threads, answer);
    Ok(())
}

/// Of four threads two wait for the second, and the last for itself; the second ends, and one that waited does so again.
fn wakes(answer: &mut Answer) -> Result<(), AllocError> {
    let mut threads = four(answer.alloc())?;
    tell_runnable(&threads, answer);
    answer.spaced(&threads.join(0, 1));
    answer.spaced(&threads.join(2, 1));
    answer.spaced(&threads.join(3, 3));
    tell_runnable(&threads, answer);
    threads.end(1);
    tell_runnable(&threads, answer);
    answer.spaced(&threads.join(0, 1));
    answer.spaced(&threads.start(1));
    tell_runnable(&threads, answer);
    Ok(())
}

/// Whether all have ended: before the first one has, behind it while the second isn't started, and once that is.
fn ends(answer: &mut Answer) -> Result<(), AllocError> {
    let alloc = answer.alloc();
    let mut threads = Threads::open(alloc)?;
    let one = threads.add(alloc)?;
    answer.debug_pair(&one, &threads.all_ended());
    threads.end(0);
    answer.spaced(&threads.all_ended());
    tell_runnable(&threads, answer);
    answer.spaced(&threads.start(1));
    answer.spaced(&threads.all_ended());
    Ok(())
}

/// What is asked of threads.
pub fn found(kind: &str, words: &str, answer: &mut Answer) {
    let done = match kind {
        "picks" => return picked(words, answer),
        "starts" => starts(answer),
        "wakes" => wakes(answer),
        "ends" => ends(answer),
        _ => return answer.refuse(),
    };
    answer.needs(done);
}
