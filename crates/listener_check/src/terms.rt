ghost use Rattle.std.specs.Prelude.{◌≡◌, ◌++◌, drop, map, IfOk, OnOk};
ghost use Rattle.type_table.specs.Found.{Finds};
ghost use Rattle.listener_check.specs.Terms.{is_and, joined, joined_behind, followed_behind, all_read, not_read, group_read, term_read, part_of, each, each_behind, may_begin, deadline_read, ended_read, wait_read, leaf_template_read, term_found};
ghost use Rattle.listener_check.specs.Went.{Goes};

use crate::bound::{bound_of, inner_scope};
use crate::reader::{Reader, count_leaf};
use crate::sofar::Sofar;
use epl_tree::{Duration, EventExpr, EventExprs, EventNode, Template};
use epl_values::{List, Text, Texts};
use span_text::Spot;
use sqlite_items::Boxed;
use std::alloc::{AllocError, Global};
use type_table::{Fault, Refusal, Scope, Table};
use typed_program::{Term, Terms, TypedTerm};

fn push_names(all: &mut Texts, alloc: Global, names: &[Text]) -> Result<(), AllocError>
    ensures { OnOk result (all.new ≡ all.old ++ names.now) }
{
    for name in names {
        all.push(Text::of(alloc, name.as_str())?)?;
    }
    Ok(())
}

/// The names of left sides, and behind them those from a place on.
fn left_from(alloc: Global, left: &Texts, names: &Texts, start: usize) -> Result<Texts, AllocError>
    ensures { IfOk result (λ l. l ≡ left.now ++ drop start names.now) }
{
    let mut all = List::new(alloc);
    push_names(&mut all, alloc, left.as_slice())?;
    if start < names.len() {
        push_names(&mut all, alloc, &names.as_slice()[start..])?;
    }
    Ok(all)
}

/// What joins the operands of a chain.
#[derive(Clone, Copy)]
enum Joint {
    Or,
    Xor,
    And,
}

fn is_and(joint: Joint) -> bool
    ensures { result ≡ is_and joint }
{
    match joint {
        Joint::And => true,
        _ => false,
    }
}

fn joined(joint: Joint, head: Boxed<Term>, tail: Terms) -> Term
    ensures { result ≡ joined joint head tail }
{
    match joint {
        Joint::Or => Term::Or(head, tail),
        Joint::Xor => Term::Xor(head, tail),
        Joint::And => Term::And(head, tail),
    }
}

#[tactic(auto, unfolding(crate::specs::Terms::deadline_read))]
fn count_deadline(sofar: &mut Sofar, spot: Spot, within: &Option<Duration>) -> Result<(), Refusal>
    ensures { Goes result (deadline_read spot within.now sofar.old) sofar.new }
{
    match within {
        Some(_) => count_leaf(sofar, spot),
        None => Ok(()),
    }
}

impl Reader<'_> {
    fn may_begin(&self, rest: &EventExprs) -> bool
        ensures { result ≡ may_begin (map (part_of self.now.table.now self.now.scope.now self.now.inner.now) rest.now) }
    {
        match rest.as_slice() {
            [second, ..] => match &second.node {
                EventNode::Not(_) => false,
                _ => true,
            },
            [] => false,
        }
    }

    /// A part of an event expression: whether it may be a `not`, whether it is under one, and the names that are bound in
    /// left sides around it.
    #[cycle(read)]
    #[tactic(auto, using(crate::proofs::Going::going))]
    fn read(
        &self,
        sofar: &mut Sofar,
        tree: &EventExpr,
        may: bool,
        under: bool,
        left: &Texts,
    ) -> Result<Term, Refusal>
        ensures { Goes result (term_read self.now.table.now self.now.scope.now self.now.inner.now tree.now may under left.now sofar.old) sofar.new }
    {
        match &tree.node {
            EventNode::Followed(first, rest) => {
                let start = sofar.names.len();
                let head = self.boxed(sofar, first.get(), false, under, left)?;
                self.read_followed(sofar, rest, start, head, under, left)
            }
            EventNode::Or(first, rest) => {
                let head = self.boxed(sofar, first.get(), false, under, left)?;
                self.read_joined(sofar, rest, Joint::Or, head, under, left)
            }
            EventNode::Xor(first, rest) => {
                let head = self.boxed(sofar, first.get(), false, under, left)?;
                self.read_joined(sofar, rest, Joint::Xor, head, under, left)
            }
            EventNode::And(first, rest) => {
                let head = self.boxed(sofar, first.get(), self.may_begin(rest), under, left)?;
                self.read_joined(sofar, rest, Joint::And, head, under, left)
            }
            EventNode::All(inner) => self.read_all(sofar, inner.get(), under, left),
            EventNode::Not(inner) => self.read_not(sofar, inner.get(), tree.spot, may, left),
            EventNode::Group(inner, within) => {
                self.read_group(sofar, inner.get(), tree.spot, within, under, left)
            }
            EventNode::Wait(duration) => self.wait(sofar, tree.spot, duration),
            EventNode::Template(template) => self.leaf(sofar, tree.spot, under, left, template),
        }
    }

    #[cycle(read)]
    #[tactic(auto, using(crate::proofs::Going::going))]
    fn boxed(
        &self,
        sofar: &mut Sofar,
        tree: &EventExpr,
        may: bool,
        under: bool,
        left: &Texts,
    ) -> Result<Boxed<Term>, Refusal>
        ensures { Goes result (term_read self.now.table.now self.now.scope.now self.now.inner.now tree.now may under left.now sofar.old) sofar.new }
    {
        let term = self.read(sofar, tree, may, under, left)?;
        Ok(Boxed::new(self.alloc, term)?)
    }

    /// The right sides of `->` behind the first operand.
    #[cycle(read)]
    #[tactic(auto, using(crate::proofs::Going::going), unfolding(crate::specs::Terms::followed_behind))]
    fn read_followed(
        &self,
        sofar: &mut Sofar,
        rest: &EventExprs,
        start: usize,
        head: Boxed<Term>,
        under: bool,
        left: &Texts,
    ) -> Result<Term, Refusal>
        ensures { Goes result (followed_behind start head (map (part_of self.now.table.now self.now.scope.now self.now.inner.now) rest.now) under left.now sofar.old) sofar.new }
    {
        let tail = self.read_behind(sofar, rest, start, under, left)?;
        Ok(Term::Followed(head, tail))
    }

    /// The operands of a chain behind the first one.
    #[cycle(read)]
    #[tactic(auto, using(crate::proofs::Going::going), unfolding(crate::specs::Terms::joined_behind))]
    fn read_joined(
        &self,
        sofar: &mut Sofar,
        rest: &EventExprs,
        joint: Joint,
        head: Boxed<Term>,
        under: bool,
        left: &Texts,
    ) -> Result<Term, Refusal>
        ensures { Goes result (joined_behind joint head (map (part_of self.now.table.now self.now.scope.now self.now.inner.now) rest.now) under left.now sofar.old) sofar.new }
    {
        let tail = self.read_each(sofar, rest, is_and(joint), under, left)?;
        Ok(joined(joint, head, tail))
    }

    #[cycle(read)]
    #[tactic(auto, using(crate::proofs::Going::going), unfolding(crate::specs::Terms::all_read))]
    fn read_all(
        &self,
        sofar: &mut Sofar,
        tree: &EventExpr,
        under: bool,
        left: &Texts,
    ) -> Result<Term, Refusal>
        ensures { Goes result (all_read (part_of self.now.table.now self.now.scope.now self.now.inner.now tree.now) under left.now sofar.old) sofar.new }
    {
        let inner = self.boxed(sofar, tree, false, under, left)?;
        Ok(Term::All(inner))
    }

    /// A `not`, whose spot this is.
    #[cycle(read)]
    #[tactic(auto, using(crate::proofs::Going::going), unfolding(crate::specs::Terms::not_read))]
    fn read_not(
        &self,
        sofar: &mut Sofar,
        tree: &EventExpr,
        spot: Spot,
        may: bool,
        left: &Texts,
    ) -> Result<Term, Refusal>
        ensures { Goes result (not_read spot (part_of self.now.table.now self.now.scope.now self.now.inner.now tree.now) may left.now sofar.old) sofar.new }
    {
        if !may {
            return Err(Refusal::Fault(Fault { code: 19, spot }));
        }
        let inner = self.boxed(sofar, tree, false, true, left)?;
        Ok(Term::Not(inner))
    }

    /// What stands in parentheses, whose spot this is.
    #[cycle(read)]
    #[tactic(auto, using(crate::proofs::Going::going), unfolding(crate::specs::Terms::group_read))]
    fn read_group(
        &self,
        sofar: &mut Sofar,
        tree: &EventExpr,
        spot: Spot,
        within: &Option<Duration>,
        under: bool,
        left: &Texts,
    ) -> Result<Term, Refusal>
        ensures { Goes result (group_read self.now.table.now self.now.scope.now self.now.inner.now spot (part_of self.now.table.now self.now.scope.now self.now.inner.now tree.now) within.now under left.now sofar.old) sofar.new }
    {
        count_deadline(sofar, spot, within)?;
        let inner = self.boxed(sofar, tree, false, under, left)?;
        self.ended(sofar, inner, within)
    }

    #[cycle(read)]
    #[tactic(auto, using(crate::proofs::Going::going))]
    fn read_each(
        &self,
        sofar: &mut Sofar,
        trees: &EventExprs,
        may: bool,
        under: bool,
        left: &Texts,
    ) -> Result<Terms, Refusal>
        ensures { Goes result (each may under left.now (map (part_of self.now.table.now self.now.scope.now self.now.inner.now) trees.now) sofar.old) sofar.new }
    {
        let mut done = List::new(self.alloc);
        for tree in trees.as_slice() {
            let term = self.read(sofar, tree, may, under, left)?;
            done.push(term)?;
        }
        Ok(done)
    }

    #[cycle(read)]
    #[tactic(auto, using(crate::proofs::Going::going))]
    fn read_behind(
        &self,
        sofar: &mut Sofar,
        trees: &EventExprs,
        start: usize,
        under: bool,
        left: &Texts,
    ) -> Result<Terms, Refusal>
        ensures { Goes result (each_behind start under left.now (map (part_of self.now.table.now self.now.scope.now self.now.inner.now) trees.now) sofar.old) sofar.new }
    {
        let mut done = List::new(self.alloc);
        for tree in trees.as_slice() {
            let left = left_from(self.alloc, left, &sofar.names, start)?;
            let term = self.read(sofar, tree, false, under, &left)?;
            done.push(term)?;
        }
        Ok(done)
    }

    #[tactic(auto, using(crate::proofs::Going::going), unfolding(crate::specs::Terms::ended_read))]
    fn ended(
        &self,
        sofar: &mut Sofar,
        inner: Boxed<Term>,
        within: &Option<Duration>,
    ) -> Result<Term, Refusal>
        ensures { Goes result (ended_read self.now.table.now self.now.scope.now self.now.inner.now inner within.now sofar.old) sofar.new }
    {
        match within {
            Some(within) => {
                let timed = self.duration(sofar, within)?;
                Ok(Term::Group(inner, Some(timed)))
            }
            None => Ok(Term::Group(inner, None)),
        }
    }

    #[tactic(auto, using(crate::proofs::Going::going), unfolding(crate::specs::Terms::wait_read))]
    fn wait(&self, sofar: &mut Sofar, spot: Spot, duration: &Duration) -> Result<Term, Refusal>
        ensures { Goes result (wait_read self.now.table.now self.now.scope.now self.now.inner.now spot duration.now sofar.old) sofar.new }
    {
        count_leaf(sofar, spot)?;
        let timed = self.duration(sofar, duration)?;
        Ok(Term::Wait(timed))
    }

    #[tactic(auto, using(crate::proofs::Going::going), unfolding(crate::specs::Terms::leaf_template_read))]
    fn leaf(
        &self,
        sofar: &mut Sofar,
        spot: Spot,
        under: bool,
        left: &Texts,
        template: &Template,
    ) -> Result<Term, Refusal>
        ensures { Goes result (leaf_template_read self.now.table.now self.now.scope.now self.now.inner.now spot under left.now template.now sofar.old) sofar.new }
    {
        let shape = self.template(sofar, spot, under, left, template)?;
        Ok(Term::Template(shape))
    }
}

/// The event expression of a site, or its first fault.
pub fn term(
    alloc: Global,
    table: &Table,
    scope: &Scope,
    tree: &EventExpr,
) -> Result<TypedTerm, Refusal>
    ensures { Finds result (term_found table.now scope.now tree.now) }
{
    let inner = inner_scope(alloc, table, scope, tree)?;
    let reader = Reader {
        alloc,
        table,
        scope,
        inner: &inner,
    };
    let mut sofar = Sofar {
        leaves: 0,
        sums: 0,
        operands: List::new(alloc),
        names: List::new(alloc),
    };
    let term = reader.read(&mut sofar, tree, false, false, &List::new(alloc))?;
    let bound = bound_of(alloc, scope, &inner)?;
    let Sofar {
        leaves: _,
        sums: _,
        operands,
        names: _,
    } = sofar;
    Ok(TypedTerm {
        term,
        operands,
        bound,
    })
}
