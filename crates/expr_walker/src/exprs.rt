ghost use Rattle.std.specs.Prelude.{◌≡◌, ◌&&◌, [], map, Some, IfOk, IfErr, IfSome};
ghost use Rattle.calm_exprs.specs.Calm.{is_calm, are_calm};
ghost use Rattle.epl_values.specs.Order.{KeysAscend};
ghost use Rattle.body_meaning.specs.Expressions.{or_from, and_from, xor_from, links_from, entries_behind, reach_from, default_by, Place, meaning_of};
ghost use Rattle.typed_program.specs.declared.expression.TypedExpr.{out-TypedExpr};
ghost use Rattle.action_host.specs.Told.{Told};
ghost use Rattle.walk_rules.specs.declared.stop.Stop.TheVariants.{Memory};
ghost use Rattle.walk_rules.specs.Ran.{Walks};
ghost use Rattle.body_meaning.specs.declared.run.Frame.{Frame};
ghost use Rattle.body_meaning.specs.Acts.{enter};
ghost use Rattle.body_meaning.specs.Runs.{all, all_behind, pure};
ghost use Rattle.body_meaning.specs.Statements.{move_of, moves_in};
ghost use Rattle.value_steps.specs.Orderly.{IsOrderly, AreOrderly, AreOrderlyPairs, IsOrderlyMove, AreOrderlyMoves};
ghost use Rattle.path_bases.specs.Bases.{Stands, IsOrderlyBase};
ghost use Rattle.expr_walker.specs.Leaving.{is_from_global};
ghost use Rattle.path_bases.specs.Locals.{values_in, frame_of, got_value};
ghost use Rattle.path_bases.specs.Tells.{Tells};
ghost use Rattle.expr_walker.specs.Means.{value_by, reach_by, link_by, entry_by, compared_by, element_by, found_by, called_by, item_by, key_by, lent_value, lent_values};

use action_host::{Fault, Host};
use body_meaning::Move;
use calm_exprs::{all_calm, calm};
use epl_values::{Items, Pairs, Text, Value, Values};
use lists::List;
use path_bases::{
    Base, Got, Gots, global, global_base, held_unless, local, local_base, settle, stepped,
};
use std::alloc::Global;
use std::marker::PhantomData;
use typed_program::{
    Comparison, Method, Program, TypedEntry, TypedExpr, TypedExprs, TypedLink, TypedNode,
    TypedSuffix, TypedSuffixNode,
};
use value_rules::default_of;
use value_steps::{integer, negated, put_entry, truth};
use walk_methods::{compare, method, operate};
use walk_rules::{Stop, current, make_context};

/// Walks the expressions of a body over its locals, with a function for the calls in them.
#[derive(Drop)]
pub struct Walker<'w, 'x, H, F> {
    pub alloc: Global,
    pub program: &'w Program,
    /// How many more calls may nest.
    pub depth: u16,
    pub locals: &'w Gots<'x>,
    pub call: F,
    pub host: PhantomData<H>,
}

impl<
    'w,
    'x,
    H: Host,
    F: Fn(Global, &Program, u16, u16, Gots<'_>, &mut Values, &mut H) -> Result<Value, Stop>,
> Walker<'w, 'x, H, F> {
    ghost use Rattle.expr_walker.specs.Walked.{IsReady, Walked, Found, Reached};

    /// The value of an expression.
    #[cycle(walk)]
    pub fn value(&self, e: &TypedExpr, globals: &mut Values, host: &mut H) -> Result<Value, Stop>
        requires ready { IsReady H.told self.now.program.now self.now.depth (F.pre self.now.call) (F.post self.now.call) self.now.locals.now }
        requires globals { AreOrderly globals.old }
        ensures { Walked (H.told host.old) globals.old (H.told host.new) globals.new self.now.locals.now (value_by self.now.program.now self.now.depth e.now) IsOrderly result }
    {
        match &e.node {
            TypedNode::Integer(n) => Ok(Value::Integer(*n)),
            TypedNode::Text(text) => Ok(Value::Text(Text::of(self.alloc, text.as_str())?)),
            TypedNode::Boolean(b) => Ok(Value::Boolean(*b)),
            TypedNode::Global(n) => Ok(global(self.alloc, globals, *n)?),
            TypedNode::Local(n) => Ok(local(self.alloc, self.locals, *n)?),
            TypedNode::Or(first, rest) => {
                let value = self.value(first.get(), globals, host)?;
                self.or(rest, value, globals, host)
            }
            TypedNode::Xor(first, rest) => {
                let value = self.value(first.get(), globals, host)?;
                self.xor(rest, value, globals, host)
            }
            TypedNode::And(first, rest) => {
                let value = self.value(first.get(), globals, host)?;
                self.and(rest, value, globals, host)
            }
            TypedNode::Not(e) => {
                let value = self.value(e.get(), globals, host)?;
                Ok(Value::Boolean(!truth(&value)))
            }
            TypedNode::Compare(left, comparison, right) => {
                let base = self.base(left.get(), globals, host)?;
                self.compared(right.get(), base, *comparison, globals, host)
            }
            TypedNode::Sum(first, links) => {
                let value = self.value(first.get(), globals, host)?;
                self.links(links, value, globals, host)
            }
            TypedNode::Product(first, links) => {
                let value = self.value(first.get(), globals, host)?;
                self.links(links, value, globals, host)
            }
            TypedNode::Minus(e) => {
                let value = self.value(e.get(), globals, host)?;
                Ok(negated(&value)?)
            }
            TypedNode::Postfix(first, steps) => {
                let base = self.base(first.get(), globals, host)?;
                let base = self.reached(steps.as_slice(), base, globals, host)?;
                settle(self.alloc, base, globals)
            }
            TypedNode::Action(n, arguments) => {
                let lent = self.arguments(arguments.as_slice(), globals, host)?;
                (self.call)(
                    self.alloc,
                    self.program,
                    self.depth,
                    *n,
                    lent,
                    globals,
                    host,
                )
            }
            TypedNode::Event(n, arguments) => {
                let values = self.values(arguments.as_slice(), globals, host)?;
                Ok(Value::Event(*n, values))
            }
            TypedNode::Sequence(items) => {
                let elements = self.elements(items.as_slice(), globals, host)?;
                Ok(Value::Sequence(elements))
            }
            TypedNode::Dictionary(entries) => {
                let pairs = self.entries(entries.as_slice(), globals, host)?;
                Ok(Value::Dictionary(pairs))
            }
            TypedNode::Default => self.default(e),
            TypedNode::Context(arguments) => {
                let values = self.values(arguments.as_slice(), globals, host)?;
                make_context(self.alloc, host, values)
            }
            TypedNode::ContextCurrent => Ok(current(host)),
            TypedNode::Tenths(n) => Ok(Value::Integer(*n)),
        }
    }

    /// The default of the shape that stands at an expression.
    fn default(&self, e: &TypedExpr) -> Result<Value, Stop>
        ensures value { IfOk result (λ v. v ≡ default_by self.now.program.now.types (out-TypedExpr e.now).shape) }
        ensures memory { IfErr result (λ stop. stop ≡ Memory) }
        ensures order { IfOk result IsOrderly }
    {
        match &e.shape {
            Some(shape) => Ok(default_of(self.alloc, shape, &self.program.types)?),
            None => Ok(Value::NoContext),
        }
    }

    // ---- operators

    #[cycle(walk)]
    fn or(
        &self,
        rest: &TypedExprs,
        first: Value,
        globals: &mut Values,
        host: &mut H,
    ) -> Result<Value, Stop>
        requires ready { IsReady H.told self.now.program.now self.now.depth (F.pre self.now.call) (F.post self.now.call) self.now.locals.now }
        requires globals { AreOrderly globals.old }
        requires order { IsOrderly first }
        ensures { Walked (H.told host.old) globals.old (H.told host.new) globals.new self.now.locals.now (or_from (map (value_by self.now.program.now self.now.depth) rest.now) first) IsOrderly result }
    {
        let mut value = first;
        for e in rest.as_slice() {
            if truth(&value) {
                return Ok(value);
            }
            value = self.value(e, globals, host)?;
        }
        Ok(value)
    }

    #[cycle(walk)]
    fn and(
        &self,
        rest: &TypedExprs,
        first: Value,
        globals: &mut Values,
        host: &mut H,
    ) -> Result<Value, Stop>
        requires ready { IsReady H.told self.now.program.now self.now.depth (F.pre self.now.call) (F.post self.now.call) self.now.locals.now }
        requires globals { AreOrderly globals.old }
        requires order { IsOrderly first }
        ensures { Walked (H.told host.old) globals.old (H.told host.new) globals.new self.now.locals.now (and_from (map (value_by self.now.program.now self.now.depth) rest.now) first) IsOrderly result }
    {
        let mut value = first;
        for e in rest.as_slice() {
            if !truth(&value) {
                return Ok(value);
            }
            value = self.value(e, globals, host)?;
        }
        Ok(value)
    }

    #[cycle(walk)]
    fn xor(
        &self,
        rest: &TypedExprs,
        first: Value,
        globals: &mut Values,
        host: &mut H,
    ) -> Result<Value, Stop>
        requires ready { IsReady H.told self.now.program.now self.now.depth (F.pre self.now.call) (F.post self.now.call) self.now.locals.now }
        requires globals { AreOrderly globals.old }
        requires order { IsOrderly first }
        ensures { Walked (H.told host.old) globals.old (H.told host.new) globals.new self.now.locals.now (xor_from (map (value_by self.now.program.now self.now.depth) rest.now) first) IsOrderly result }
    {
        let mut value = first;
        for e in rest.as_slice() {
            let other = self.value(e, globals, host)?;
            value = Value::Boolean(truth(&value) != truth(&other));
        }
        Ok(value)
    }

    #[cycle(walk)]
    fn links(
        &self,
        links: &List<TypedLink>,
        first: Value,
        globals: &mut Values,
        host: &mut H,
    ) -> Result<Value, Stop>
        requires ready { IsReady H.told self.now.program.now self.now.depth (F.pre self.now.call) (F.post self.now.call) self.now.locals.now }
        requires globals { AreOrderly globals.old }
        requires order { IsOrderly first }
        ensures { Walked (H.told host.old) globals.old (H.told host.new) globals.new self.now.locals.now (links_from (map (link_by self.now.program.now self.now.depth) links.now) first) IsOrderly result }
    {
        let mut value = first;
        for link in links.as_slice() {
            let other = self.value(&link.operand, globals, host)?;
            value = operate(self.alloc, host, link.operator, &value, &other)?;
        }
        Ok(value)
    }

    /// The right operand of a comparison behind the left one, and what they come to.
    #[cycle(walk)]
    fn compared<'s>(
        &'s self,
        right: &TypedExpr,
        left: Base<'s>,
        comparison: Comparison,
        globals: &mut Values,
        host: &mut H,
    ) -> Result<Value, Stop>
        requires ready { IsReady H.told self.now.program.now self.now.depth (F.pre self.now.call) (F.post self.now.call) self.now.locals.now }
        requires globals { AreOrderly globals.old }
        requires order { IsOrderlyBase left }
        ensures means { (v : _) → Stands globals.old left.entry v → Tells (compared_by self.now.program.now self.now.depth comparison v right.now) (H.told host.old) (frame_of globals.old self.now.locals.now) (H.told host.new) (frame_of globals.new self.now.locals.now) result }
        ensures kept { AreOrderly globals.new }
        ensures order { (v : _) → Stands globals.old left.entry v → IfOk result IsOrderly }
    {
        let left = held_unless(self.alloc, leaves(right, &left), left, globals)?;
        let right = self.base(right, globals, host)?;
        compare(comparison, &left, &right, globals)
    }

    // ---- lists

    /// The values of expressions, from left to right.
    #[cycle(walk)]
    pub fn values(
        &self,
        es: &[TypedExpr],
        globals: &mut Values,
        host: &mut H,
    ) -> Result<Values, Stop>
        requires ready { IsReady H.told self.now.program.now self.now.depth (F.pre self.now.call) (F.post self.now.call) self.now.locals.now }
        requires globals { AreOrderly globals.old }
        ensures { Walked (H.told host.old) globals.old (H.told host.new) globals.new self.now.locals.now (all (map (value_by self.now.program.now self.now.depth) es.now)) AreOrderly result }
    {
        let mut values = List::new(self.alloc);
        for e in es {
            let value = self.value(e, globals, host)?;
            values.push(value)?;
        }
        Ok(values)
    }

    /// The values of expressions, from left to right, as the elements of a sequence.
    #[cycle(walk)]
    fn elements(&self, es: &[TypedExpr], globals: &mut Values, host: &mut H) -> Result<Items, Stop>
        requires ready { IsReady H.told self.now.program.now self.now.depth (F.pre self.now.call) (F.post self.now.call) self.now.locals.now }
        requires globals { AreOrderly globals.old }
        ensures { Walked (H.told host.old) globals.old (H.told host.new) globals.new self.now.locals.now (all (map (value_by self.now.program.now self.now.depth) es.now)) AreOrderly result }
    {
        let mut elements = Items::new(self.alloc);
        for e in es {
            let value = self.value(e, globals, host)?;
            elements.push(value)?;
        }
        Ok(elements)
    }

    #[cycle(walk)]
    fn entries(
        &self,
        entries: &[TypedEntry],
        globals: &mut Values,
        host: &mut H,
    ) -> Result<Pairs, Stop>
        requires ready { IsReady H.told self.now.program.now self.now.depth (F.pre self.now.call) (F.post self.now.call) self.now.locals.now }
        requires globals { AreOrderly globals.old }
        ensures { Walked (H.told host.old) globals.old (H.told host.new) globals.new self.now.locals.now (entries_behind [] (map (entry_by self.now.program.now self.now.depth) entries.now)) (λ pairs. KeysAscend pairs × AreOrderlyPairs pairs) result }
    {
        let mut pairs = Pairs::new(self.alloc);
        for entry in entries {
            let key = self.value(&entry.key, globals, host)?;
            let value = self.value(&entry.value, globals, host)?;
            put_entry(self.alloc, &mut pairs, key, value)?;
        }
        Ok(pairs)
    }

    // ---- arguments of calls

    /// What is lent to a call: a path from a local by reference, and else a value.
    #[cycle(walk)]
    fn argument(&self, e: &TypedExpr, globals: &mut Values, host: &mut H) -> Result<Got<'_>, Stop>
        requires ready { IsReady H.told self.now.program.now self.now.depth (F.pre self.now.call) (F.post self.now.call) self.now.locals.now }
        requires globals { AreOrderly globals.old }
        ensures means { Tells (value_by self.now.program.now self.now.depth e.now) (H.told host.old) (frame_of globals.old self.now.locals.now) (H.told host.new) (frame_of globals.new self.now.locals.now) (lent_value result) }
        ensures kept { AreOrderly globals.new }
        ensures order { IfOk result (λ got. IsOrderly (got_value got)) }
    {
        let base = self.base(e, globals, host)?;
        lend(self.alloc, base, globals)
    }

    #[cycle(walk)]
    fn arguments(
        &self,
        es: &[TypedExpr],
        globals: &mut Values,
        host: &mut H,
    ) -> Result<Gots<'_>, Stop>
        requires ready { IsReady H.told self.now.program.now self.now.depth (F.pre self.now.call) (F.post self.now.call) self.now.locals.now }
        requires globals { AreOrderly globals.old }
        ensures means { Tells (all (map (value_by self.now.program.now self.now.depth) es.now)) (H.told host.old) (frame_of globals.old self.now.locals.now) (H.told host.new) (frame_of globals.new self.now.locals.now) (lent_values result) }
        ensures kept { AreOrderly globals.new }
        ensures order { IfOk result (λ gots. AreOrderly (values_in gots)) }
    {
        let mut lent = List::new(self.alloc);
        for e in es {
            let got = self.argument(e, globals, host)?;
            lent.push(got)?;
        }
        Ok(lent)
    }

    // ---- paths

    /// The base of a path; another expression is a base of its own value.
    #[cycle(walk)]
    pub fn base(&self, e: &TypedExpr, globals: &mut Values, host: &mut H) -> Result<Base<'_>, Stop>
        requires ready { IsReady H.told self.now.program.now self.now.depth (F.pre self.now.call) (F.post self.now.call) self.now.locals.now }
        requires globals { AreOrderly globals.old }
        ensures { Found (H.told host.old) globals.old (H.told host.new) globals.new self.now.locals.now (value_by self.now.program.now self.now.depth e.now) result }
    {
        match &e.node {
            TypedNode::Global(n) => Ok(global_base(self.alloc, globals, *n)),
            TypedNode::Local(n) => Ok(local_base(self.locals, *n)),
            TypedNode::Postfix(first, steps) => {
                let base = self.base(first.get(), globals, host)?;
                self.reached(steps.as_slice(), base, globals, host)
            }
            _ => {
                let value = self.value(e, globals, host)?;
                Ok(Base::Own(value))
            }
        }
    }

    /// What steps reach from a base, one after another.
    #[cycle(walk)]
    fn reached<'s>(
        &'s self,
        steps: &[TypedSuffix],
        first: Base<'s>,
        globals: &mut Values,
        host: &mut H,
    ) -> Result<Base<'s>, Stop>
        requires ready { IsReady H.told self.now.program.now self.now.depth (F.pre self.now.call) (F.post self.now.call) self.now.locals.now }
        requires globals { AreOrderly globals.old }
        requires order { IsOrderlyBase first }
        ensures { Reached (H.told host.old) globals.old (H.told host.new) globals.new self.now.locals.now (reach_from (map (reach_by self.now.program.now self.now.depth) steps.now)) first.entry result }
    {
        let mut base = first;
        for step in steps {
            base = self.reach(step, base, globals, host)?;
        }
        Ok(base)
    }

    #[cycle(walk)]
    fn reach<'s>(
        &'s self,
        step: &TypedSuffix,
        base: Base<'s>,
        globals: &mut Values,
        host: &mut H,
    ) -> Result<Base<'s>, Stop>
        requires ready { IsReady H.told self.now.program.now self.now.depth (F.pre self.now.call) (F.post self.now.call) self.now.locals.now }
        requires globals { AreOrderly globals.old }
        requires order { IsOrderlyBase base }
        ensures { Reached (H.told host.old) globals.old (H.told host.new) globals.new self.now.locals.now ((reach_by self.now.program.now self.now.depth step.now).from) base.entry result }
    {
        match &step.node {
            TypedSuffixNode::Field(n) => stepped(self.alloc, base, Move::Field(*n), globals),
            TypedSuffixNode::Item(e) => self.element(e.get(), base, globals, host),
            TypedSuffixNode::Key(e) => self.entry(e.get(), base, globals, host),
            TypedSuffixNode::Method(name, arguments) => {
                self.called(*name, arguments, base, globals, host)
            }
        }
    }

    /// An element of a sequence, behind its index.
    #[cycle(walk)]
    fn element<'s>(
        &'s self,
        e: &TypedExpr,
        base: Base<'s>,
        globals: &mut Values,
        host: &mut H,
    ) -> Result<Base<'s>, Stop>
        requires ready { IsReady H.told self.now.program.now self.now.depth (F.pre self.now.call) (F.post self.now.call) self.now.locals.now }
        requires globals { AreOrderly globals.old }
        requires order { IsOrderlyBase base }
        ensures { Reached (H.told host.old) globals.old (H.told host.new) globals.new self.now.locals.now (λ v. element_by self.now.program.now self.now.depth v e.now) base.entry result }
    {
        let base = held_unless(self.alloc, leaves(e, &base), base, globals)?;
        let to = self.item(e, globals, host)?;
        stepped(self.alloc, base, to, globals)
    }

    /// A value of a dictionary, behind its key.
    #[cycle(walk)]
    fn entry<'s>(
        &'s self,
        e: &TypedExpr,
        base: Base<'s>,
        globals: &mut Values,
        host: &mut H,
    ) -> Result<Base<'s>, Stop>
        requires ready { IsReady H.told self.now.program.now self.now.depth (F.pre self.now.call) (F.post self.now.call) self.now.locals.now }
        requires globals { AreOrderly globals.old }
        requires order { IsOrderlyBase base }
        ensures { Reached (H.told host.old) globals.old (H.told host.new) globals.new self.now.locals.now (λ v. found_by self.now.program.now self.now.depth v e.now) base.entry result }
    {
        let base = held_unless(self.alloc, leaves(e, &base), base, globals)?;
        let to = self.key(e, globals, host)?;
        stepped(self.alloc, base, to, globals)
    }

    /// A method, behind its arguments.
    #[cycle(walk)]
    fn called<'s>(
        &'s self,
        name: Method,
        arguments: &TypedExprs,
        base: Base<'s>,
        globals: &mut Values,
        host: &mut H,
    ) -> Result<Base<'s>, Stop>
        requires ready { IsReady H.told self.now.program.now self.now.depth (F.pre self.now.call) (F.post self.now.call) self.now.locals.now }
        requires globals { AreOrderly globals.old }
        requires order { IsOrderlyBase base }
        ensures { Reached (H.told host.old) globals.old (H.told host.new) globals.new self.now.locals.now (λ v. called_by self.now.program.now self.now.depth name v arguments.now) base.entry result }
    {
        let arguments = arguments.as_slice();
        let base = held_unless(self.alloc, leave(arguments, &base), base, globals)?;
        let values = self.values(arguments, globals, host)?;
        let types = &self.program.types;
        let value = method(self.alloc, types, host, name, &base, values, globals)?;
        Ok(Base::Own(value))
    }

    #[cycle(walk)]
    fn item(&self, e: &TypedExpr, globals: &mut Values, host: &mut H) -> Result<Move, Stop>
        requires ready { IsReady H.told self.now.program.now self.now.depth (F.pre self.now.call) (F.post self.now.call) self.now.locals.now }
        requires globals { AreOrderly globals.old }
        ensures { Walked (H.told host.old) globals.old (H.told host.new) globals.new self.now.locals.now (item_by self.now.program.now self.now.depth e.now) IsOrderlyMove result }
    {
        let value = self.value(e, globals, host)?;
        Ok(Move::Item(integer(&value)))
    }

    #[cycle(walk)]
    fn key(&self, e: &TypedExpr, globals: &mut Values, host: &mut H) -> Result<Move, Stop>
        requires ready { IsReady H.told self.now.program.now self.now.depth (F.pre self.now.call) (F.post self.now.call) self.now.locals.now }
        requires globals { AreOrderly globals.old }
        ensures { Walked (H.told host.old) globals.old (H.told host.new) globals.new self.now.locals.now (key_by self.now.program.now self.now.depth e.now) IsOrderlyMove result }
    {
        let value = self.value(e, globals, host)?;
        Ok(Move::Key(value))
    }

    /// The step of a path that is changed or assigned; a method leads nowhere.
    fn step(&self, step: &TypedSuffix, globals: &mut Values, host: &mut H) -> Result<Move, Stop>
        requires ready { IsReady H.told self.now.program.now self.now.depth (F.pre self.now.call) (F.post self.now.call) self.now.locals.now }
        requires globals { AreOrderly globals.old }
        ensures { Walked (H.told host.old) globals.old (H.told host.new) globals.new self.now.locals.now (move_of (reach_by self.now.program.now self.now.depth step.now).move) IsOrderlyMove result }
    {
        match &step.node {
            TypedSuffixNode::Field(n) => Ok(Move::Field(*n)),
            TypedSuffixNode::Item(e) => self.item(e.get(), globals, host),
            TypedSuffixNode::Key(e) => self.key(e.get(), globals, host),
            TypedSuffixNode::Method(..) => Err(Stop::from(Fault::IndexOutOfRange)),
        }
    }

    /// The steps behind those of a path that is changed or assigned, from left to right.
    pub fn steps_behind(
        &self,
        steps: &[TypedSuffix],
        before: List<Move>,
        globals: &mut Values,
        host: &mut H,
    ) -> Result<List<Move>, Stop>
        requires ready { IsReady H.told self.now.program.now self.now.depth (F.pre self.now.call) (F.post self.now.call) self.now.locals.now }
        requires globals { AreOrderly globals.old }
        requires order { AreOrderlyMoves before }
        ensures { Walked (H.told host.old) globals.old (H.told host.new) globals.new self.now.locals.now (all_behind before (moves_in (map (reach_by self.now.program.now self.now.depth) steps.now))) AreOrderlyMoves result }
    {
        let mut moves = before;
        for step in steps {
            let to = self.step(step, globals, host)?;
            moves.push(to)?;
        }
        Ok(moves)
    }

    /// The steps of a path, from left to right; a variable has none.
    pub fn path_moves(
        &self,
        e: &TypedExpr,
        globals: &mut Values,
        host: &mut H,
    ) -> Result<List<Move>, Stop>
        requires ready { IsReady H.told self.now.program.now self.now.depth (F.pre self.now.call) (F.post self.now.call) self.now.locals.now }
        requires globals { AreOrderly globals.old }
        ensures means { (p : Place) → (meaning_of self.now.program.now.types (enter self.now.program.now self.now.depth) e.now).place ≡ Some p → Tells (all p.moves) (H.told host.old) (frame_of globals.old self.now.locals.now) (H.told host.new) (frame_of globals.new self.now.locals.now) result }
        ensures kept { AreOrderly globals.new }
        ensures order { IfOk result AreOrderlyMoves }
    {
        match &e.node {
            TypedNode::Postfix(first, steps) => {
                let before = self.path_moves(first.get(), globals, host)?;
                self.steps_behind(steps.as_slice(), before, globals, host)
            }
            _ => Ok(List::new(self.alloc)),
        }
    }
}

/// Whether a base is what is reached from a global; any other goes on standing for its value while the globals change.
fn is_from_global(base: &Base<'_>) -> bool
    ensures { result ≡ is_from_global base.now }
{
    matches!(base, Base::Global(..))
}

/// Whether a base is what is reached from a global, and an expression leaves the globals as they are.
fn leaves(e: &TypedExpr, base: &Base<'_>) -> bool
    ensures { result ≡ (is_from_global base.now && is_calm e.now) }
{
    is_from_global(base) && calm(e)
}

/// The same of several expressions.
fn leave(es: &[TypedExpr], base: &Base<'_>) -> bool
    ensures { result ≡ (is_from_global base.now && are_calm es.now) }
{
    is_from_global(base) && all_calm(es)
}

/// A base as an argument.
fn lend<'s>(alloc: Global, base: Base<'s>, globals: &Values) -> Result<Got<'s>, Stop>
    requires order { AreOrderly globals.now }
    requires base { IsOrderlyBase base }
    ensures means { (v : _) → Stands globals.now base.entry v → (told : Told) (frame : Frame) → Walks (pure v) told frame told frame (lent_value result) }
    ensures order { IfOk result (λ got. IsOrderly (got_value got)) }
{
    match base {
        Base::Lent(value) => Ok(Got::Lent(value)),
        base => Ok(Got::Own(settle(alloc, base, globals)?)),
    }
}
