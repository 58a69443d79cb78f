use crate::words::{put, units_of};
use crate::{contexts, jobs, permissions, policies, sources, stacks};
use jdomain::{CodeSource, Domains};
use jground::jtext::Units;
use jperm::Permission;
use jpolicy::Policy;
use std::alloc::Global;
use tests_rows::{Answer, Line, Rows, Unread, bytes_of, first, unquoted, yes_or_no};

/// What was read so far.
#[derive(Drop)]
pub struct Table {
    /// The directory in which names are read.
    directory: Units,
    /// The permissions of the list that is asked.
    held: Vec<Permission>,
    /// The properties of the policies, each with its value.
    properties: Vec<(Units, Units)>,
    /// The policy of the domains.
    policy: Vec<u8>,
    /// The directory in which that policy's names are read.
    granted_in: Units,
    /// The code sources of the domains.
    sources: Vec<CodeSource>,
}

impl Table {
    pub fn new(alloc: Global) -> Table {
        Table {
            directory: Units::new(alloc),
            held: Vec::new(alloc),
            properties: Vec::new(alloc),
            policy: Vec::new(alloc),
            granted_in: Units::new(alloc),
            sources: Vec::new(alloc),
        }
    }

    /// The policy of the domains.
    fn granting(&self, alloc: Global) -> Result<Policy, Unread> {
        match policies::policy_of(alloc, self.policy.as_slice(), &[]) {
            Ok(policy) => Ok(policy),
            Err(_) => Err(Unread::Line),
        }
    }

    fn domains(&self, alloc: Global) -> Result<Domains, Unread> {
        let policy = self.granting(alloc)?;
        let sources = self.sources.as_slice();
        Ok(Domains::open(alloc, &policy, sources, &self.granted_in)?)
    }

    /// The permissions of a domain under a policy.
    fn tell_list(&self, policy: &Policy, d: u32, answer: &mut Answer) {
        let sources = self.sources.as_slice();
        if sources.len() <= d as usize {
            return answer.refuse();
        }
        match Domains::open(answer.alloc(), policy, sources, &self.granted_in) {
            Ok(domains) => sources::tell_list(domains.list(d), answer),
            Err(_) => answer.lack(),
        }
    }

    /// The permissions of a domain.
    fn granted(&self, field: &str, answer: &mut Answer) {
        let d = answer.number(field);
        match self.granting(answer.alloc()) {
            Ok(policy) => self.tell_list(&policy, d, answer),
            Err(why) => answer.fail(why),
        }
    }

    /// What is asked of domains and of a permission: whether one has it, or what a context answers.
    fn of_asked(
        &self,
        kind: &str,
        domains: &Domains,
        words: &str,
        asked: &Permission,
        answer: &mut Answer,
    ) {
        match kind {
            "has" => {
                let d = answer.number(words);
                answer.tell(yes_or_no(domains.implies(d, asked)));
            }
            _ => contexts::verdict(&self.directory, domains, words, asked, answer),
        }
    }

    /// The same of the permission that the last field says.
    fn of_permission(&self, kind: &str, domains: &Domains, fields: &str, answer: &mut Answer) {
        let (words, asked) = answer.parted(fields, " | ");
        match permissions::permission(answer.alloc(), &self.directory, asked) {
            Ok(asked) => self.of_asked(kind, domains, words, &asked, answer),
            Err(why) => answer.fail(why),
        }
    }

    /// Answers a row that asks what domains decide.
    fn decide(&self, kind: &str, fields: &str, answer: &mut Answer) {
        let domains = match self.domains(answer.alloc()) {
            Ok(domains) => domains,
            Err(why) => return answer.fail(why),
        };
        match kind {
            "has" | "verdict" => self.of_permission(kind, &domains, fields, answer),
            "walk" => stacks::walked(&domains, fields, answer),
            "kept" => stacks::decided(&domains, fields, answer),
            _ => stacks::chain(&domains, fields, answer),
        }
    }

    /// Answers a row of jobs, of commands or of kept stacks.
    fn ask_below(&self, kind: &str, fields: &str, answer: &mut Answer) {
        match kind {
            "job" => jobs::job(fields, answer),
            "long job" => jobs::long_job(fields, answer),
            "command" => jobs::command(fields, answer),
            "stored" => jobs::stored(fields, answer),
            "entries" => stacks::entries(fields, answer),
            "has" | "verdict" | "walk" | "kept" | "chain" => self.decide(kind, fields, answer),
            _ => answer.refuse(),
        }
    }

    /// Answers a row.
    fn ask(&self, kind: &str, fields: &str, answer: &mut Answer) {
        let directory = &self.directory;
        match kind {
            "made" => permissions::made(directory, fields, answer),
            "path" => permissions::path(fields, answer),
            "implies" | "equal" => permissions::compared(kind, directory, fields, answer),
            "covers" => permissions::covered(directory, self.held.as_slice(), fields, answer),
            "for" => sources::matched(false, fields, answer),
            "for more" => sources::matched(true, fields, answer),
            "read" => policies::read(self.properties.as_slice(), fields, answer),
            "source" => sources::source(fields, answer),
            "granted" => self.granted(fields, answer),
            "context" => contexts::context(directory, fields, answer),
            "turns" => contexts::turns(directory, fields, answer),
            "rising" => contexts::rising(fields, answer),
            "alike" => contexts::alikes(fields, answer),
            _ => self.ask_below(kind, fields, answer),
        }
    }

    fn put_property(&mut self, alloc: Global, fields: &str) -> Result<(), Unread> {
        let (name, value) = first(fields)?;
        let name = units_of(alloc, unquoted(name)?)?;
        let value = units_of(alloc, unquoted(value)?)?;
        Ok(put((name, value), &mut self.properties)?)
    }

    /// Puts a line behind those of the policy.
    fn put_policy(&mut self, alloc: Global, field: &str) -> Result<(), Unread> {
        let line = bytes_of(alloc, unquoted(field)?)?;
        self.policy.extend_from_slice(b"\n")?;
        Ok(self.policy.extend_from_slice(line.as_slice())?)
    }

    fn put_source(&mut self, alloc: Global, field: &str) -> Result<(), Unread> {
        let source = sources::source_of(alloc, field)?;
        Ok(put(source, &mut self.sources)?)
    }

    fn set_directory(&mut self, alloc: Global, field: &str) -> Result<(), Unread> {
        self.directory = units_of(alloc, unquoted(field)?)?;
        Ok(())
    }

    fn set_held(&mut self, alloc: Global, fields: &str) -> Result<(), Unread> {
        self.held = permissions::all(alloc, &self.directory, fields)?;
        Ok(())
    }

    /// Begins other domains, with a policy whose names are read in a directory.
    fn begin(&mut self, alloc: Global, fields: &str) -> Result<(), Unread> {
        let (directory, line) = first(fields)?;
        self.granted_in = units_of(alloc, unquoted(directory)?)?;
        self.policy = bytes_of(alloc, unquoted(line)?)?;
        self.sources = Vec::new(alloc);
        Ok(())
    }

    fn known(&mut self, alloc: Global, kind: &str, fields: &str) -> Result<bool, Unread> {
        match kind {
            "directory" => self.set_directory(alloc, fields)?,
            "held" => self.set_held(alloc, fields)?,
            "property" => self.put_property(alloc, fields)?,
            "domains" => self.begin(alloc, fields)?,
            "policy" => self.put_policy(alloc, fields)?,
            "domain" => self.put_source(alloc, fields)?,
            _ => return Ok(false),
        }
        Ok(true)
    }
}

impl Rows for Table {
    fn read<'a>(&mut self, rt: &HostRuntime, line: &'a str) -> Result<Line<'a>, Unread> {
        let alloc = rt.alloc();
        if line.is_empty() || line.starts_with('#') {
            return Ok(Line::Known);
        }
        let (kind, fields) = first(line)?;
        if kind == "section" {
            return Ok(Line::Section(fields));
        }
        if self.known(alloc, kind, fields)? {
            return Ok(Line::Known);
        }
        let Some((asked, wanted)) = fields.rsplit_once(" | ") else {
            return Err(Unread::Line);
        };
        let mut answer = Answer::new(alloc);
        self.ask(kind, asked, &mut answer);
        Ok(Line::Row(wanted, answer.into_text()?))
    }
}
