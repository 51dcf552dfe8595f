ghost use Rattle.std.specs.Prelude.{◌≡◌, IfOk, OnOk, drop, length, map};
ghost use Rattle.type_table.specs.Table.{event_of};
ghost use Rattle.listener_check.specs.Bound.{event_shape, with_bound, clauses_bind, binds, all_bind, inner_of, local_shape, local_of, bound_of};

use epl_tree::{EventExpr, EventExprs, EventNode, Template, TemplateClause};
use epl_values::{List, Shape, Text, copy_shape};
use std::alloc::{AllocError, Global};
use type_table::{Scope, Seen, SeenKind, Seens, Table, copy_seen, short};
use typed_program::{Local, Locals};

fn copy_names(alloc: Global, names: &Seens) -> Result<Seens, AllocError>
    ensures { IfOk result (λ n. n ≡ names.now) }
{
    let mut copies = List::new(alloc);
    for seen in names.as_slice() {
        copies.push(copy_seen(alloc, seen)?)?;
    }
    Ok(copies)
}

/// A scope of its own with the same names.
pub fn copy_scope(alloc: Global, scope: &Scope) -> Result<Scope, AllocError>
    ensures { IfOk result (λ s. s ≡ scope.now) }
{
    Ok(Scope {
        monitor: scope.monitor,
        actions: scope.actions,
        names: copy_names(alloc, &scope.names)?,
    })
}

fn event_shape(table: &Table, event: &str) -> Option<Shape>
    ensures { result ≡ event_shape (event_of table.now event.now) }
{
    match table.event_of(event) {
        Some(number) => Some(Shape::Event(short(number))),
        None => None,
    }
}

/// Adds the names that event expressions bind.
#[derive(Drop)]
struct Binder<'a> {
    alloc: Global,
    table: &'a Table,
    /// How many names stand around the event expression.
    outer: usize,
}

impl Binder<'_> {
    fn bind(&self, scope: &mut Scope, event: &str, name: &str) -> Result<(), AllocError>
        ensures { OnOk result (scope.new ≡ with_bound self.now.table.now self.now.outer event.now name.now scope.old) }
    {
        if scope.seen_of(name).is_some() {
            return Ok(());
        }
        let number = short(scope.names.len().saturating_sub(self.outer));
        let seen = Seen {
            name: Text::of(self.alloc, name)?,
            shape: event_shape(self.table, event),
            kind: SeenKind::Bound,
            number,
        };
        scope.names.push(seen)
    }

    fn template(&self, scope: &mut Scope, template: &Template) -> Result<(), AllocError>
        ensures { OnOk result (scope.new ≡ clauses_bind self.now.table.now self.now.outer template.now.event template.now.clauses scope.old) }
    {
        for clause in template.clauses.as_slice() {
            if let TemplateClause::As(name) = clause {
                self.bind(scope, template.event.as_str(), name.text.as_str())?;
            }
        }
        Ok(())
    }

    #[cycle(binds)]
    fn expression(&self, scope: &mut Scope, tree: &EventExpr) -> Result<(), AllocError>
        ensures { OnOk result (scope.new ≡ binds self.now.table.now self.now.outer tree.now scope.old) }
    {
        match &tree.node {
            EventNode::Followed(first, rest) => {
                self.expression(scope, first.get())?;
                self.all(scope, rest)
            }
            EventNode::Or(first, rest) => {
                self.expression(scope, first.get())?;
                self.all(scope, rest)
            }
            EventNode::Xor(first, rest) => {
                self.expression(scope, first.get())?;
                self.all(scope, rest)
            }
            EventNode::And(first, rest) => {
                self.expression(scope, first.get())?;
                self.all(scope, rest)
            }
            EventNode::All(inner) => self.expression(scope, inner.get()),
            EventNode::Not(inner) => self.expression(scope, inner.get()),
            EventNode::Group(inner, _) => self.expression(scope, inner.get()),
            EventNode::Wait(_) => Ok(()),
            EventNode::Template(template) => self.template(scope, template),
        }
    }

    #[cycle(binds)]
    fn all(&self, scope: &mut Scope, trees: &EventExprs) -> Result<(), AllocError>
        ensures { OnOk result (scope.new ≡ all_bind self.now.table.now self.now.outer trees.now scope.old) }
    {
        for tree in trees.as_slice() {
            self.expression(scope, tree)?;
        }
        Ok(())
    }
}

/// The scope of an event expression's operands.
pub fn inner_scope(
    alloc: Global,
    table: &Table,
    scope: &Scope,
    tree: &EventExpr,
) -> Result<Scope, AllocError>
    ensures { IfOk result (λ s. s ≡ inner_of table.now scope.now tree.now) }
{
    let mut inner = copy_scope(alloc, scope)?;
    let binder = Binder {
        alloc,
        table,
        outer: scope.names.len(),
    };
    binder.expression(&mut inner, tree)?;
    Ok(inner)
}

fn local_of(alloc: Global, seen: &Seen) -> Result<Local, AllocError>
    ensures { IfOk result (λ l. l ≡ local_of seen.now) }
{
    let shape = match &seen.shape {
        Some(shape) => copy_shape(alloc, shape)?,
        None => Shape::Integer,
    };
    Ok(Local {
        number: seen.number,
        shape,
    })
}

fn locals_of(alloc: Global, own: &[Seen]) -> Result<Locals, AllocError>
    ensures { IfOk result (λ b. b ≡ map local_of own.now) }
{
    let mut bound = List::new(alloc);
    for seen in own {
        bound.push(local_of(alloc, seen)?)?;
    }
    Ok(bound)
}

/// The bound names of an event expression.
pub fn bound_of(alloc: Global, scope: &Scope, inner: &Scope) -> Result<Locals, AllocError>
    ensures { IfOk result (λ b. b ≡ bound_of scope.now inner.now) }
{
    let names = inner.names.as_slice();
    let outer = scope.names.len();
    if outer < names.len() {
        locals_of(alloc, &names[outer..])
    } else {
        Ok(List::new(alloc))
    }
}
