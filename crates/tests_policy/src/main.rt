//! Asks the crates of permissions, policy files, code sources, what a policy grants to them, security contexts, jobs, command lines and
//! kept stacks what the lines of the input ask, and tells how many answers of each section are those that the input says, and which
//! aren't. The input's head says what its columns are.
//!
//! No room names it.
#![tactic(auto)]

mod contexts;
mod jobs;
mod kept;
mod permissions;
mod policies;
mod sources;
mod stacks;
mod table;
mod words;

use std::io;
use table::Table;
use tests_rows::ask;

fn main(rt: HostRuntime) -> io::Result<()> {
    ask(&rt, &mut Table::new(rt.alloc()))
}
