//! Asks the crates of constant pools, stack maps, instructions, class files, made jobs and moved methods what the lines of the input ask, and
//! tells how many answers of each section are those that the input says, and which aren't. The input says what its columns are.
//!
//! No room names it.
#![tactic(auto)]

mod classes;
mod code;
mod gen_asking;
mod move_asking;
mod move_given;
mod move_reading;
mod move_table;
mod pools;
mod stack_maps;
mod table;
mod trips;

use std::io;
use table::Table;
use tests_rows::ask;

fn main(rt: HostRuntime) -> io::Result<()> {
    ask(&rt, &mut Table::new(rt.alloc()))
}
