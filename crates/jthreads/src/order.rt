ghost use Rattle.std.specs.Prelude.{◌≡◌, ◌<◌, ◌≤◌, ◌++◌, ◌∷◌, ℕ, List, length};
ghost use Rattle.std.specs.VecDeque.{deque_capacity};
ghost use Rattle.jthreads.specs.ThreadQueues.{IsBetween, alone};

use std::collections::VecDeque;

/// How many of these rising numbers are below a number.
fn place_of(order: &VecDeque<u32>, t: u32) -> usize
    ensures bound { result ≤ length order.now.items }
    ensures without { (front back : List ℕ) → order.now.items ≡ front ++ back → IsBetween front t back → result ≡ length front }
    ensures with { (front back : List ℕ) → order.now.items ≡ front ++ t ∷ back → IsBetween front t back → result ≡ length front }
{
    order.partition_point(|i| *i < t)
}

/// A thread can run from now on, or no longer: its number is put to its place, or taken away.
pub(crate) fn keep_order(order: &mut VecDeque<u32>, t: u32, ran: bool, runs: bool)
    requires room { length order.old.items < deque_capacity order.old }
    ensures items { (front back : List ℕ) → order.old.items ≡ front ++ (alone ran t ++ back) → IsBetween front t back
        → order.new.items ≡ front ++ (alone runs t ++ back) }
    ensures capacity { deque_capacity order.old ≤ deque_capacity order.new }
{
    match (ran, runs) {
        (false, true) => {
            let at = place_of(order, t);
            order.insert(at, t).unwrap();
        }
        (true, false) => {
            let at = place_of(order, t);
            order.remove(at);
        }
        _ => {}
    }
}
