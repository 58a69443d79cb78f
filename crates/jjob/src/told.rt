ghost use Rattle.std.specs.Prelude.{◌≡◌, [], ◌∷◌, ◌++◌, ◌<◌, List, IfOk, OnOk, None, false, codes, length, unwrap_or};
ghost use Rattle.std.specs.Option.{option_map, option_to_list};
ghost use Rattle.jground.specs.jbase.FirstFaults.{first_some};
ghost use Rattle.jjob.specs.declared.line.Said.{Said as SaidValue};
ghost use Rattle.jjob.specs.declared.line.Said.TheVariants.{Class, Code, Prop};
ghost use Rattle.jjob.specs.Jobs.{job_of, main_in};
ghost use Rattle.jjob.specs.JobReaderState.{IsTold, after, is_too_much};

use crate::job::{
    DEFAULT_DEPTH, DEFAULT_HEAP, DEFAULT_STEPS, Job, JobSource, MOST_CLASSES, MOST_CODES,
    MOST_PICKS,
};
use crate::line::Said;
use crate::text::{Text, units_of, widened};
use jdomain::CodeSource;
use jground::jbase::Seq;
use jground::jtext::Units;
use std::alloc::{AllocError, Global};

/// What the lines so far give.
#[derive(Drop)]
pub struct Told {
    pub policy: Option<Text>,
    pub props: Seq<(Units, Units)>,
    pub cwd: Option<Units>,
    /// The code sources before the last.
    pub done: Seq<JobSource>,
    /// The last code source, to which class files come.
    pub last: Option<JobSource>,
    pub codes: usize,
    pub classes: usize,
    pub main: Option<Units>,
    pub schedule: Seq<u32>,
    pub heap: Option<u32>,
    pub depth: Option<u32>,
    pub steps: Option<u64>,
}

impl Told {
    /// What no lines give. It takes no memory.
    pub fn new(alloc: Global) -> Told
        ensures { IsTold [] result }
    {
        Told {
            policy: None,
            props: Seq::new(alloc),
            cwd: None,
            done: Seq::new(alloc),
            last: None,
            codes: 0,
            classes: 0,
            main: None,
            schedule: Seq::new(alloc),
            heap: None,
            depth: None,
            steps: None,
        }
    }

    /// Whether something may not be said again, or is more than a job may have. Names of properties aren't looked at.
    #[tactic(auto, unfolding(crate::specs::JobReaderState::is_too_much))]
    pub fn is_too_much(&self, said: &Said) -> bool
        ensures { result ≡ is_too_much self.now said.now }
    {
        match said {
            Said::Policy(_) => self.policy.is_some(),
            Said::Prop(_, _) => false,
            Said::Cwd(_) => self.cwd.is_some(),
            Said::Code(_) => MOST_CODES <= self.codes,
            Said::Class(_) => self.codes == 0 || MOST_CLASSES <= self.classes,
            Said::Main(_) => self.main.is_some(),
            Said::Schedule(numbers) => {
                MOST_PICKS < self.schedule.as_slice().len() + numbers.as_slice().len()
            }
            Said::Heap(_) => self.heap.is_some(),
            Said::Depth(_) => self.depth.is_some(),
            Said::Steps(_) => self.steps.is_some(),
        }
    }

    /// Adds what a line says.
    #[tactic(auto, using(crate::proofs::JobPrefixes::told_more))]
    pub fn add(&mut self, alloc: Global, said: Said) -> Result<(), AllocError>
        requires { is_too_much self.old said ≡ false }
        ensures { (before : List SaidValue) → IsTold before self.old → OnOk result (IsTold (before ++ said ∷ []) self.new) }
    {
        self.put(alloc, said)
    }

    /// Adds a property.
    #[tactic(auto, using(crate::proofs::JobPrefixes::told_more), unfolding(crate::specs::JobReaderState::is_too_much))]
    pub fn add_prop(&mut self, alloc: Global, name: &str, value: &str) -> Result<(), AllocError>
        ensures { (before : List SaidValue) → IsTold before self.old → OnOk result (IsTold (before ++ Prop name.now value.now ∷ []) self.new) }
    {
        self.put_prop(alloc, name, value)
    }

    /// The job of what all lines say, where they name a main class.
    #[tactic(auto, unfolding(crate::specs::Jobs::job_of))]
    pub fn into_job(self, alloc: Global) -> Result<Option<Job>, AllocError>
        ensures { (said : List SaidValue) → IsTold said self → IfOk result (λ job. job ≡ option_map (job_of said) (first_some main_in said)) }
    {
        let Told {
            policy,
            props,
            cwd,
            done,
            last,
            main,
            schedule,
            heap,
            depth,
            steps,
            ..
        } = self;
        let Some(main) = main else {
            return Ok(None);
        };
        let cwd = folder(alloc, cwd)?;
        let sources = all_sources(done, last)?;
        Ok(Some(Job {
            policy,
            props,
            cwd,
            sources,
            main,
            schedule,
            heap: heap.unwrap_or(DEFAULT_HEAP),
            depth: depth.unwrap_or(DEFAULT_DEPTH),
            steps: steps.unwrap_or(DEFAULT_STEPS),
        }))
    }

    /// Puts what a line says to its field.
    #[tactic(auto, unfolding(crate::specs::JobReaderState::is_too_much, crate::specs::JobReaderState::after))]
    fn put(&mut self, alloc: Global, said: Said) -> Result<(), AllocError>
        requires { is_too_much self.old said ≡ false }
        ensures { OnOk result (self.new ≡ after self.old said) }
    {
        match said {
            Said::Policy(path) => self.policy = Some(path),
            Said::Prop(name, value) => return self.put_prop(alloc, name.as_str(), value.as_str()),
            Said::Cwd(path) => self.cwd = Some(units_of(alloc, path.as_str())?),
            Said::Code(source) => return self.add_code(alloc, source),
            Said::Class(path) => return self.add_class(path),
            Said::Main(name) => self.main = Some(units_of(alloc, name.as_str())?),
            Said::Schedule(numbers) => self.schedule.extend(numbers.as_slice())?,
            Said::Heap(cells) => self.heap = Some(cells),
            Said::Depth(frames) => self.depth = Some(frames),
            Said::Steps(steps) => self.steps = Some(steps),
        }
        Ok(())
    }

    /// Puts a property to the others.
    #[tactic(auto, unfolding(crate::specs::JobReaderState::after))]
    fn put_prop(&mut self, alloc: Global, name: &str, value: &str) -> Result<(), AllocError>
        ensures { OnOk result (self.new ≡ after self.old (Prop name.now value.now)) }
    {
        let name = units_of(alloc, name)?;
        let value = units_of(alloc, value)?;
        self.props.push((name, value))
    }

    /// Begins a code source.
    #[tactic(auto, unfolding(crate::specs::JobReaderState::after))]
    fn add_code(&mut self, alloc: Global, source: CodeSource) -> Result<(), AllocError>
        requires { self.old.codes < 4096 }
        ensures { OnOk result (self.new ≡ after self.old (Code source)) }
    {
        if let Some(last) = self.last.take() {
            self.done.push(last)?;
        }
        self.last = Some(JobSource {
            source,
            classes: Seq::new(alloc),
        });
        self.codes += 1;
        Ok(())
    }

    /// Adds a class file to the last code source.
    #[tactic(auto, unfolding(crate::specs::JobReaderState::after))]
    fn add_class(&mut self, path: Text) -> Result<(), AllocError>
        requires { self.old.classes < 65535 }
        ensures { OnOk result (self.new ≡ after self.old (Class path)) }
    {
        if let Some(last) = &mut self.last {
            last.classes.push(path)?;
        }
        self.classes += 1;
        Ok(())
    }
}

/// The folder of a job, where it isn't said too.
fn folder(alloc: Global, said: Option<Units>) -> Result<Units, AllocError>
    ensures { IfOk result (λ path. path ≡ unwrap_or said (codes "/")) }
{
    match said {
        Some(path) => Ok(path),
        None => widened(alloc, b"/"),
    }
}

/// The code sources with the last one.
fn all_sources(
    mut done: Seq<JobSource>,
    last: Option<JobSource>,
) -> Result<Seq<JobSource>, AllocError>
    ensures { IfOk result (λ sources. sources ≡ done ++ option_to_list last) }
{
    if let Some(last) = last {
        done.push(last)?;
    }
    Ok(done)
}
