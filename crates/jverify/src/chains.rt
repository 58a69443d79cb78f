ghost use Rattle.std.specs.Prelude.{◌≡◌, ◌+◌, ◌<◌, ◌≤◌, ◌^◌, ◌∷◌, ◌++◌, ℕ, [], IfOk, IfSome, MatchOption, OnOk, Option};
ghost use Rattle.std.specs.Prelude.{length, option_map};
ghost use Rattle.std.specs.List.{list_any};
ghost use Rattle.jparts.specs.jmaps.ExpandedFrames.{chopped, locals_after};
ghost use Rattle.jresolution.specs.declared.jprogram.part.ClassRef.{ClassRef};
ghost use Rattle.jtyping.specs.jrule.OperandSlots;
ghost use Rattle.jtyping.specs.jrule.OperandSlots.{slot_count};
ghost use Rattle.jtyping.specs.jrule.TypeSubstitution;
ghost use Rattle.jtyping.specs.jrule.TypeSubstitution.{is_this};
ghost use Rattle.jverify.specs.LocalChains;
ghost use Rattle.jverify.specs.LocalChains.{AreMade, Extends, IsLink, IsNode, SaysMade, all_made, chain, values};

use jresolution::juses::TypeRef;
use jtyping::jrule::News;
use std::alloc::{AllocError, Global};
use std::marker::Model;

/// A local, with what is known of it and of all in front of it.
#[derive(Clone, Copy, Debug)]
pub(crate) struct Node {
    pub kind: TypeRef,
    /// The number of the local in front of it, 0 for the first one.
    pub parent: usize,
    /// How many places they fill: a long fills two.
    pub places: usize,
    /// One is `this` before its `<init>`.
    pub flag: bool,
    /// A `new` stands wherever one names it.
    pub made: bool,
}

/// The locals of frames as a tree, in which each is a node that leads to the one in front of it, so that frames share their first
/// locals. Nodes are numbered from 1 on; contracts see them newest first.
#[derive(Debug, Drop)]
pub(crate) struct Chains {
    nodes: Vec<Node>,
}

impl Model for Chains {
    ghost use Rattle.std.specs.Prelude.{◌<◌, ◌^◌, List, length, reverse};
    ghost use Rattle.jverify.specs.declared.chains.Node.{Node};
    ghost use Rattle.jverify.specs.LocalChains.{AreNodes};

    ghost Value = { List Node };

    ghost view = { λ c. reverse c.nodes.items };

    ghost invariant = { λ c. AreNodes (reverse c.nodes.items) × (length c.nodes.items < 2 ^ 32) };
}

/// How many places a local fills.
pub(crate) fn size(kind: TypeRef) -> usize
    ensures { result ≡ OperandSlots.size kind }
{
    match kind {
        TypeRef::Long => 2,
        _ => 1,
    }
}

pub(crate) fn is_this(kind: TypeRef) -> bool
    ensures { result ≡ TypeSubstitution.is_this kind }
{
    matches!(kind, TypeRef::UninitThis)
}

/// Whether a `new` stands where one is named.
pub(crate) fn is_made<N: News>(news: &N, kind: TypeRef) -> bool
    ensures { result ≡ LocalChains.is_made (N.makes news.now) kind }
{
    match kind {
        TypeRef::Uninit(at) => news.made_at(at).is_some(),
        _ => true,
    }
}

impl Chains {
    /// No nodes. It takes no memory.
    pub(crate) fn new(alloc: Global) -> Chains
        ensures { result ≡ [] }
    {
        Chains {
            nodes: Vec::new(alloc),
        }
    }

    /// The node of a number.
    pub(crate) fn get(&self, number: usize) -> Node
        requires some { 0 < number }
        requires within { number ≤ length self.now }
        ensures link { IsLink self.now number result }
        ensures made { SaysMade self.now number result }
    {
        self.nodes[number - 1]
    }

    /// The node of a number, none for 0.
    fn node(&self, number: usize) -> Option<Node>
        requires { number ≤ length self.now }
        ensures link { MatchOption result (chain self.now number ≡ []) (IsLink self.now number) }
        ensures made { MatchOption result (number ≡ 0) (SaysMade self.now number) }
    {
        if number == 0 {
            return None;
        }
        Some(self.get(number))
    }

    /// How many places a chain fills.
    #[tactic(auto, unfolding(jtyping::specs::jrule::OperandSlots::slot_count))]
    pub(crate) fn places(&self, end: usize) -> usize
        requires { end ≤ length self.now }
        ensures count { result ≡ slot_count (chain self.now end) }
        ensures few { result + 2 < 2 ^ 64 }
    {
        // What the proof needs: the invariant of the nodes.
        let _nodes = &self.nodes;
        match self.node(end) {
            None => 0,
            Some(node) => node.places,
        }
    }

    /// Whether one of a chain's locals is `this` before its `<init>`.
    pub(crate) fn flag(&self, end: usize) -> bool
        requires { end ≤ length self.now }
        ensures { result ≡ list_any is_this (chain self.now end) }
    {
        match self.node(end) {
            None => false,
            Some(node) => node.flag,
        }
    }

    /// Whether the `new`s are there that a chain names.
    pub(crate) fn made(&self, end: usize) -> bool
        requires { end ≤ length self.now }
        ensures { (makes : ℕ → Option ClassRef) → AreMade makes self.now → result ≡ all_made makes (chain self.now end) }
    {
        match self.node(end) {
            None => true,
            Some(node) => node.made,
        }
    }

    /// Whether the `new`s are there that a chain and one more local name.
    fn made_with<N: News>(&self, news: &N, end: usize, kind: TypeRef) -> bool
        requires { end ≤ length self.now }
        ensures { AreMade (N.makes news.now) self.now → result ≡ all_made (N.makes news.now) (kind ∷ chain self.now end) }
    {
        if !is_made(news, kind) {
            return false;
        }
        self.made(end)
    }

    /// A node for one more local behind a chain.
    #[tactic(auto, unfolding(jtyping::specs::jrule::OperandSlots::slot_count))]
    fn behind<N: News>(&self, news: &N, end: usize, kind: TypeRef) -> Node
        requires { end ≤ length self.now }
        ensures node { IsNode self.now result }
        ensures kind { result.kind ≡ kind }
        ensures parent { result.parent ≡ end }
        ensures made { AreMade (N.makes news.now) self.now → result.made ≡ all_made (N.makes news.now) (kind ∷ chain self.now end) }
    {
        Node {
            kind,
            parent: end,
            places: self.places(end) + size(kind),
            flag: is_this(kind) || self.flag(end),
            made: self.made_with(news, end, kind),
        }
    }

    /// Puts a node to the others, and answers its number. After an error they are as they were. The error says that no memory was left,
    /// or that there would be 2 ^ 32 nodes.
    #[tactic(auto, using(crate::proofs::LocalChains::reverse_pushed))]
    fn push(&mut self, node: Node) -> Result<usize, AllocError>
        requires { IsNode self.old node }
        ensures ok { OnOk result (self.new ≡ node ∷ self.old) }
        ensures number { IfOk result (λ n. n ≡ length self.new) }
    {
        if self.nodes.len() >= 0xffff_ffff {
            return Err(AllocError);
        }
        self.nodes.push(node)?;
        Ok(self.nodes.len())
    }

    /// Puts one more local behind a chain, and answers the number of its node.
    fn add<N: News>(&mut self, news: &N, end: usize, kind: TypeRef) -> Result<usize, AllocError>
        requires { end ≤ length self.old }
        ensures within { IfOk result (λ n. n ≤ length self.new) }
        ensures chain { IfOk result (λ n. values self.new n ≡ values self.old end ++ kind ∷ []) }
        ensures kept { OnOk result (Extends self.old self.new) }
        ensures made { OnOk result (AreMade (N.makes news.now) self.old → AreMade (N.makes news.now) self.new) }
    {
        let node = self.behind(news, end, kind);
        let number = self.push(node)?;
        Ok(number)
    }

    /// Puts more locals behind a chain, and answers the number of the last one.
    pub(crate) fn grow<N: News>(
        &mut self,
        news: &N,
        end: usize,
        kinds: &[TypeRef],
    ) -> Result<usize, AllocError>
        requires { end ≤ length self.old }
        ensures within { IfOk result (λ n. n ≤ length self.new) }
        ensures chain { IfOk result (λ n. values self.new n ≡ values self.old end ++ kinds.now) }
        ensures kept { OnOk result (Extends self.old self.new) }
        ensures made { OnOk result (AreMade (N.makes news.now) self.old → AreMade (N.makes news.now) self.new) }
    {
        let mut last = end;
        for kind in kinds {
            last = self.add(news, last, *kind)?;
        }
        Ok(last)
    }

    /// The chain without its last locals, where it has so many.
    fn climb(&self, end: usize, count: usize) -> Option<usize>
        requires { end ≤ length self.now }
        ensures within { IfSome result (λ n. n ≤ length self.now) }
        ensures chain { option_map (values self.now) result ≡ chopped count (values self.now end) }
    {
        let mut last = end;
        for _done in 0..count {
            let Some(node) = self.node(last) else {
                return None;
            };
            last = node.parent;
        }
        Some(last)
    }

    /// The chain that a written frame has behind the chain of the frame before it, by its type byte and the locals that are written in it
    /// (JVMS 4.7.4); none where it takes away more locals than there are.
    #[tactic(auto, using(crate::proofs::LocalChains::values_root), unfolding(jparts::specs::jmaps::ExpandedFrames::locals_after))]
    pub(crate) fn follow<N: News>(
        &mut self,
        news: &N,
        form: u8,
        end: usize,
        written: &[TypeRef],
    ) -> Result<Option<usize>, AllocError>
        requires { end ≤ length self.old }
        ensures within { IfOk result (λ r. IfSome r (λ n. n ≤ length self.new)) }
        ensures chain { IfOk result (λ r. option_map (values self.new) r ≡ locals_after form written.now (values self.old end)) }
        ensures kept { OnOk result (Extends self.old self.new) }
        ensures made { OnOk result (AreMade (N.makes news.now) self.old → AreMade (N.makes news.now) self.new) }
    {
        if form < 248 {
            return Ok(Some(end));
        }
        if form < 251 {
            return Ok(self.climb(end, usize::from(251 - form)));
        }
        if form < 252 {
            return Ok(Some(end));
        }
        if form < 255 {
            return Ok(Some(self.grow(news, end, written)?));
        }
        Ok(Some(self.grow(news, 0, written)?))
    }
}
