//! Moves programs from the input, and tells which of their answers differ from those of their moved programs: what classes are called and
//! what stands above them, which interfaces they implement, what their instructions name, and which method is selected where one is called.
//! The input says what its lines are.
//!
//! No room names it.
#![tactic(auto)]

mod answering;
mod asking;
mod classes;
mod comparing;
mod difference;
mod members;
mod pair;
mod references;
mod selection;
mod table;

use std::io;
use table::Table;
use tests_rows::ask;

fn main(rt: HostRuntime) -> io::Result<()> {
    ask(&rt, &mut Table::new(rt.alloc()))
}
