use jcheck::{CheckedProgram, PlainProgram};
use jdomain::{CodeSource, Domains};
use jground::jbase::Seq;
use jjob::Text;
use jmoving::RewrittenProgram;
use jsemantics::jmachine::Plan;

/// What is to be done, when all files are read and judged.
#[rattlefmt::skip]
#[derive(Drop)]
pub enum Task {
    /// A program is to be run by the stacks of its frames.
    Run { program: CheckedProgram, domains: Domains, plan: Plan },
    /// A program of the passing side is to be run by the contexts that its calls hand on.
    RunPlain { program: PlainProgram, domains: Domains, plan: Plan },
    /// A moved program is to be run, by the contexts that its calls hand on.
    RunPass { program: PlainProgram, domains: Domains, plan: Plan },
    /// How much of a program was checked is to be written.
    Check(CheckedProgram),
    /// A moved program is to be stored in a folder, with the job that it was moved from.
    Rewrite { program: RewrittenProgram, job: Text, to: Text },
    /// The permissions of each code source are to be written.
    Policy { sources: Seq<CodeSource>, domains: Domains },
}
