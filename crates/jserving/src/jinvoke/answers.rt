ghost use Rattle.std.specs.Prelude.{◌≡◌, IfOk};
ghost use Rattle.jserving.specs.jinvoke.Answers;
ghost use Rattle.jserving.specs.jinvoke.Answers.{OwnerIs};
ghost use Rattle.jserving.specs.jinvoke.CallQueries.{call_of, class_of, told};
ghost use Rattle.jserving.specs.jinvoke.InterfaceCalls;

use crate::jfits::Ancestors;
use crate::jinvoke::asked::{Asked, Face};
use crate::jinvoke::choosing::{Answer, Beside, CallKey};
use crate::jinvoke::method_lookup::MethodLookup;
use crate::jinvoke::sites::Sites;
use jcache::Memo;
use jready::Ready;
use jresolution::jprogram::ClassRef;
use jresolution::juses::InvokeKind;
use std::alloc::{AllocError, Global};
use std::marker::Model;

/// A program, with what was asked about its calls, which is remembered. Contracts see the program.
#[derive(Drop)]
pub struct Calls<'p> {
    known: MethodLookup<'p>,
    /// The last answer at each site.
    sites: Sites,
    /// Other answers: for a site whose objects are of many classes, and of calls that the machine makes itself.
    answers: Memo<Asked, Answer>,
}

impl<'p> Model for Calls<'p> {
    ghost use Rattle.jcache.specs.CacheEntries.{Remembers};
    ghost use Rattle.jresolution.specs.jprogram.ProgramClasses.{Program};
    ghost use Rattle.jserving.specs.jinvoke.Answers.{answer};
    ghost use Rattle.jserving.specs.jinvoke.CallQueries.{told};
    ghost use Rattle.jserving.specs.jinvoke.CallSiteCache.{Remember};

    ghost Value = { Program };

    ghost view = { λ c. c.known };

    ghost invariant = { λ c. Remember c.known (answer c.known) c.sites × Remembers (told c.known) c.answers };
}

impl<'p> Calls<'p> {
    /// Those of a program that is ready. Nothing was asked yet.
    pub fn of(
        alloc: Global,
        ready: &'p Ready<'p>,
        ancestors: &'p Ancestors<'p>,
    ) -> Result<Calls<'p>, AllocError>
        requires { ancestors.now ≡ ready.now.program }
        ensures { IfOk result (λ c. c ≡ ready.now.program) }
    {
        let known = MethodLookup::of(ready, ancestors);
        let sites = Sites::new(alloc);
        let answers = Memo::new(alloc)?;
        Ok(Calls {
            known,
            sites,
            answers,
        })
    }

    /// What is known of the program.
    pub fn known(&self) -> &MethodLookup<'p>
        ensures { result.now ≡ self.now }
    {
        &self.known
    }

    /// What is known of what is asked, which is remembered from now on.
    fn sought(&mut self, asked: Asked) -> Answer
        ensures answer { result ≡ told self.old asked }
        ensures same { self.new ≡ self.old }
    {
        if let Some(answer) = self.answers.get(asked) {
            return answer;
        }
        let answer = self.known.told(asked);
        self.answers.put(asked, answer);
        answer
    }

    /// What is known of a call that the machine makes itself, on an object of the class of one of the heap's numbers.
    pub(crate) fn face_answer(&mut self, face: Face, on: Option<u32>) -> Answer
        ensures answer { result ≡ InterfaceCalls.face_answer self.old (class_of face) (call_of face) on }
        ensures same { self.new ≡ self.old }
    {
        self.sought(Asked::Face { face, on })
    }

    /// What is known of a call, by its key, where that wasn't the last answer at its site. It stands beside the site from now on.
    #[inline(never)]
    fn missed(&mut self, site: usize, key: CallKey) -> Answer
        ensures answer { result ≡ Answers.answer self.old key }
        ensures same { self.new ≡ self.old }
    {
        let answer = self.sought(Asked::Call(key));
        let owner = self.known.owner_at(key.class, key.by, key.pool);
        self.sites.put(site, key, Beside { answer, owner });
        answer
    }

    /// What is known of a call, by its key. `site` says where it is remembered: each site has its last answer beside it. It is any number.
    #[inline(always)]
    pub fn answer(&mut self, site: usize, key: CallKey) -> Answer
        ensures answer { result ≡ Answers.answer self.old key }
        ensures same { self.new ≡ self.old }
    {
        if let Some(answer) = self.sites.get(site, key) {
            return answer;
        }
        self.missed(site, key)
    }

    /// The class by which the entry at an index of the pool of a class names the method of such a call. `site` says where it is remembered.
    #[inline(always)]
    pub fn owner_at(&self, site: usize, class: u32, by: InvokeKind, pool: u16) -> Option<ClassRef>
        ensures { OwnerIs self.now class by pool result }
    {
        if let Some(owner) = self.sites.owner(site, class, by, pool) {
            return owner;
        }
        self.known.owner_at(class, by, pool)
    }
}
