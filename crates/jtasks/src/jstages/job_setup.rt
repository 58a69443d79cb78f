ghost use Rattle.std.specs.Prelude.{◌≡◌, ◌≤◌, ◌++◌, IfOk, OnOk, length, map};
ghost use Rattle.jjob.specs.JobLimits.{IsWithin, most_codes};
ghost use Rattle.jtasks.specs.jstages.JobPlans.{ground_of, paths_from, paths_with, plan_of, urls_of};

use jdomain::{CodeSource, Domains};
use jground::jbase::Seq;
use jground::jtext::Units;
use jjob::{Job, JobSource, Text};
use jpolicy::Policy;
use jresolution::jprogram::MethodId;
use jsemantics::jmachine::Plan;
use std::alloc::{AllocError, Global};

/// The path of a class file, with the number of the code source that it is of.
#[rattlefmt::skip]
#[derive(Drop)]
pub struct ClassPath { pub domain: u32, pub path: Text }

/// What a job says of its run, besides the program and the method that it begins with.
#[derive(Drop)]
pub struct Setting {
    /// Which of the threads that may run comes next, at each turn.
    pub schedule: Seq<u32>,
    /// The folder in which the job runs.
    pub cwd: Units,
    /// The cells of the heap.
    pub heap: u32,
    /// The frames of a thread.
    pub depth: u32,
    /// The steps of the run.
    pub steps: u64,
}

impl Setting {
    /// The plan of a run that begins with a method.
    pub fn plan(self, main: MethodId) -> Plan
        ensures { result ≡ plan_of self main }
    {
        Plan {
            main,
            schedule: self.schedule,
            cwd: self.cwd,
            heap: self.heap,
            depth: self.depth,
            steps: self.steps,
        }
    }
}

/// What a job and its policy say: the ground on which each verb stands that reads a job.
#[derive(Drop)]
pub struct JobSetup {
    /// The code sources, in the order of their domains.
    pub sources: Seq<CodeSource>,
    /// What is granted to each.
    pub domains: Domains,
    /// The paths of all class files, in the job's order.
    pub classes: Seq<ClassPath>,
    /// The name of the main class.
    pub main: Units,
    pub setting: Setting,
}

/// Puts the paths of a code source's class files behind others.
fn add_paths(domain: u32, more: Seq<Text>, classes: &mut Seq<ClassPath>) -> Result<(), AllocError>
    ensures { OnOk result (classes.new ≡ classes.old ++ paths_with domain more) }
{
    for path in more.into_vec() {
        classes.push(ClassPath { domain, path })?;
    }
    Ok(())
}

/// The code sources of a job, and the paths of all their class files.
#[tactic(auto, unfolding(crate::specs::jstages::JobPlans::paths_from))]
fn parted(
    alloc: Global,
    sources: Seq<JobSource>,
) -> Result<(Seq<CodeSource>, Seq<ClassPath>), AllocError>
    requires { length sources ≤ most_codes }
    ensures { IfOk result (λ p. (p.0 ≡ urls_of sources) × (p.1 ≡ paths_from 0 sources)) }
{
    let mut urls = Seq::new(alloc);
    let mut classes = Seq::new(alloc);
    let mut domain: u32 = 0;
    for one in sources.into_vec() {
        urls.push(one.source)?;
        add_paths(domain, one.classes, &mut classes)?;
        domain += 1;
    }
    Ok((urls, classes))
}

/// What a job says, and what a policy grants to its code.
#[tactic(auto, unfolding(crate::specs::jstages::JobPlans::ground_of))]
pub fn ground_of(alloc: Global, job: Job, grants: &Policy) -> Result<JobSetup, AllocError>
    requires { IsWithin job }
    ensures { IfOk result (λ g. g ≡ ground_of job grants.now) }
{
    let (sources, classes) = parted(alloc, job.sources)?;
    let domains = Domains::open(alloc, grants, sources.as_slice(), &job.cwd)?;
    Ok(JobSetup {
        sources,
        domains,
        classes,
        main: job.main,
        setting: Setting {
            schedule: job.schedule,
            cwd: job.cwd,
            heap: job.heap,
            depth: job.depth,
            steps: job.steps,
        },
    })
}
