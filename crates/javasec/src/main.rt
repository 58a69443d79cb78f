//! The program: it runs a job of class files under its policy, checks it, moves it, or says what its policy grants. Its stored run is a
//! job of one class file.
//!
//! No room names it.
#![tactic(auto)]

use jtop::jmain::run;
use std::process::ExitCode;

fn main(rt: HostRuntime) -> ExitCode {
    run(&rt)
}
