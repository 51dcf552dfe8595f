ghost use Rattle.std.specs.Prelude.{◌≡◌, map, option_map};
ghost use Rattle.stmt_check.specs.Captures.{any_of, if_any, expr_names, link_names, suffix_names, entry_names, place_names, duration_names, range_names, constraint_names, clause_names, template_names, limit_names, event_names, optional_names, listening_names, stmt_names};

use epl_tree::{
    Boxed, Constraint, ConstraintNode, Duration, DurationNode, Entry, EventExpr, EventNode, Expr,
    ExprNode, Link, List, Listening, Place, Range, Stmt, StmtNode, Suffix, SuffixNode, Template,
    TemplateClause,
};

#[cycle(expressions)]
fn expr_names(tree: &Expr, name: &str) -> bool
    ensures { result ≡ expr_names tree.now name.now }
{
    match &tree.node {
        ExprNode::Or(first, rest) => expr_names(first.get(), name) || any_expr(rest, name),
        ExprNode::Xor(first, rest) => expr_names(first.get(), name) || any_expr(rest, name),
        ExprNode::And(first, rest) => expr_names(first.get(), name) || any_expr(rest, name),
        ExprNode::Not(part) => expr_names(part.get(), name),
        ExprNode::Compare(left, _, right) => {
            expr_names(left.get(), name) || expr_names(right.get(), name)
        }
        ExprNode::Sum(first, links) => expr_names(first.get(), name) || any_link(links, name),
        ExprNode::Product(first, links) => expr_names(first.get(), name) || any_link(links, name),
        ExprNode::Minus(part) => expr_names(part.get(), name),
        ExprNode::Postfix(first, steps) => expr_names(first.get(), name) || any_suffix(steps, name),
        ExprNode::Integer(_) => false,
        ExprNode::Quoted(_) => false,
        ExprNode::Boolean(_) => false,
        ExprNode::Name(text) => text.as_str() == name,
        ExprNode::Call(_, args) => any_expr(args, name),
        ExprNode::Sequence(items) => any_expr(items, name),
        ExprNode::Dictionary(entries) => any_entry(entries, name),
        ExprNode::New(_) => false,
        ExprNode::Context(args) => any_expr(args, name),
        ExprNode::ContextCurrent => false,
        ExprNode::Group(part) => expr_names(part.get(), name),
    }
}

#[cycle(expressions)]
fn any_expr(trees: &List<Expr>, name: &str) -> bool
    ensures { result ≡ any_of (map expr_names trees.now) name.now }
{
    for tree in trees.as_slice() {
        if expr_names(tree, name) {
            return true;
        }
    }
    false
}

#[cycle(expressions)]
fn any_link(links: &List<Link>, name: &str) -> bool
    ensures { result ≡ any_of (map link_names links.now) name.now }
{
    for link in links.as_slice() {
        if expr_names(&link.operand, name) {
            return true;
        }
    }
    false
}

#[cycle(expressions)]
fn any_entry(entries: &List<Entry>, name: &str) -> bool
    ensures { result ≡ any_of (map entry_names entries.now) name.now }
{
    for entry in entries.as_slice() {
        if expr_names(&entry.key, name) || expr_names(&entry.value, name) {
            return true;
        }
    }
    false
}

#[cycle(expressions)]
fn any_suffix(steps: &List<Suffix>, name: &str) -> bool
    ensures { result ≡ any_of (map suffix_names steps.now) name.now }
{
    for step in steps.as_slice() {
        if suffix_names(step, name) {
            return true;
        }
    }
    false
}

#[cycle(expressions)]
fn suffix_names(step: &Suffix, name: &str) -> bool
    ensures { result ≡ suffix_names step.now name.now }
{
    match &step.node {
        SuffixNode::Field(_) => false,
        SuffixNode::Method(_, args) => any_expr(args, name),
        SuffixNode::Index(part) => expr_names(part.get(), name),
    }
}

fn place_names(place: &Place, name: &str) -> bool
    ensures { result ≡ place_names place.now name.now }
{
    place.name.as_str() == name || any_suffix(&place.steps, name)
}

fn optional_names(tree: &Option<Expr>, name: &str) -> bool
    ensures { result ≡ optional_names tree.now name.now }
{
    match tree {
        None => false,
        Some(tree) => expr_names(tree, name),
    }
}

fn duration_names(duration: &Duration, name: &str) -> bool
    ensures { result ≡ duration_names duration.now name.now }
{
    match &duration.node {
        DurationNode::Decimal(_) => false,
        DurationNode::Seconds(tree) => expr_names(tree, name),
    }
}

fn limit_names(limit: &Option<Duration>, name: &str) -> bool
    ensures { result ≡ limit_names limit.now name.now }
{
    match limit {
        None => false,
        Some(duration) => duration_names(duration, name),
    }
}

fn range_names(range: &Range, name: &str) -> bool
    ensures { result ≡ range_names range.now name.now }
{
    expr_names(&range.low.bound, name) || expr_names(&range.high.bound, name)
}

fn constraint_names(constraint: &Constraint, name: &str) -> bool
    ensures { result ≡ constraint_names constraint.now name.now }
{
    match &constraint.node {
        ConstraintNode::Any => false,
        ConstraintNode::Equals(tree) => expr_names(tree, name),
        ConstraintNode::Compares(_, tree) => expr_names(tree, name),
        ConstraintNode::Lies(range) => range_names(range, name),
        ConstraintNode::NamedCompares(_, _, tree) => expr_names(tree, name),
        ConstraintNode::NamedLies(_, range) => range_names(range, name),
    }
}

fn clause_names(clause: &TemplateClause, name: &str) -> bool
    ensures { result ≡ clause_names clause.now name.now }
{
    match clause {
        TemplateClause::As(_) => false,
        TemplateClause::Within(duration) => duration_names(duration, name),
    }
}

fn any_constraint(constraints: &List<Constraint>, name: &str) -> bool
    ensures { result ≡ any_of (map constraint_names constraints.now) name.now }
{
    for constraint in constraints.as_slice() {
        if constraint_names(constraint, name) {
            return true;
        }
    }
    false
}

fn any_clause(clauses: &List<TemplateClause>, name: &str) -> bool
    ensures { result ≡ any_of (map clause_names clauses.now) name.now }
{
    for clause in clauses.as_slice() {
        if clause_names(clause, name) {
            return true;
        }
    }
    false
}

fn template_names(template: &Template, name: &str) -> bool
    ensures { result ≡ template_names template.now name.now }
{
    any_constraint(&template.constraints, name) || any_clause(&template.clauses, name)
}

#[cycle(events)]
fn event_names(tree: &EventExpr, name: &str) -> bool
    ensures { result ≡ event_names tree.now name.now }
{
    match &tree.node {
        EventNode::Followed(first, rest) => event_names(first.get(), name) || any_event(rest, name),
        EventNode::Or(first, rest) => event_names(first.get(), name) || any_event(rest, name),
        EventNode::Xor(first, rest) => event_names(first.get(), name) || any_event(rest, name),
        EventNode::And(first, rest) => event_names(first.get(), name) || any_event(rest, name),
        EventNode::All(part) => event_names(part.get(), name),
        EventNode::Not(part) => event_names(part.get(), name),
        EventNode::Group(part, limit) => event_names(part.get(), name) || limit_names(limit, name),
        EventNode::Wait(duration) => duration_names(duration, name),
        EventNode::Template(template) => template_names(template, name),
    }
}

#[cycle(events)]
fn any_event(trees: &List<EventExpr>, name: &str) -> bool
    ensures { result ≡ any_of (map event_names trees.now) name.now }
{
    for tree in trees.as_slice() {
        if event_names(tree, name) {
            return true;
        }
    }
    false
}

#[cycle(statements)]
fn other_names(other: &Option<Boxed<Stmt>>, name: &str) -> bool
    ensures { result ≡ if_any (option_map stmt_names other.now) name.now }
{
    match other {
        None => false,
        Some(part) => stmt_names(part.get(), name),
    }
}

/// Whether a statement names a variable of this name, at any depth.
#[cycle(statements)]
pub(crate) fn stmt_names(tree: &Stmt, name: &str) -> bool
    ensures { result ≡ stmt_names tree.now name.now }
{
    match &tree.node {
        StmtNode::Block(parts) => any_stmt(parts, name),
        StmtNode::On(on) => listening_names(on, name),
        StmtNode::Declare(..) => false,
        StmtNode::DeclareAs(_, _, value) => expr_names(value, name),
        StmtNode::DeclareOn(_, _, on) => listening_names(on, name),
        StmtNode::Assign(place, value) => place_names(place, name) || expr_names(value, name),
        StmtNode::AssignOn(place, on) => place_names(place, name) || listening_names(on, name),
        StmtNode::If(test, part, other) => {
            expr_names(test, name) || stmt_names(part.get(), name) || other_names(other, name)
        }
        StmtNode::While(test, parts) => expr_names(test, name) || any_stmt(parts, name),
        StmtNode::For(_, items, parts) => expr_names(items, name) || any_stmt(parts, name),
        StmtNode::Break => false,
        StmtNode::Continue => false,
        StmtNode::Return(value) => optional_names(value, name),
        StmtNode::Die => false,
        StmtNode::Print(text) => expr_names(text, name),
        StmtNode::Log(text, _) => expr_names(text, name),
        StmtNode::Route(value) => expr_names(value, name),
        StmtNode::Send(value, to) => expr_names(value, name) || expr_names(to, name),
        StmtNode::Spawn(_, args, to) => any_expr(args, name) || optional_names(to, name),
        StmtNode::Monitor(_, args) => any_expr(args, name),
        StmtNode::Call(tree) => expr_names(tree, name),
    }
}

#[cycle(statements)]
fn listening_names(on: &Listening, name: &str) -> bool
    ensures { result ≡ listening_names on.now name.now }
{
    event_names(&on.event, name) || stmt_names(on.callback.get(), name)
}

#[cycle(statements)]
fn any_stmt(trees: &List<Stmt>, name: &str) -> bool
    ensures { result ≡ any_of (map stmt_names trees.now) name.now }
{
    for tree in trees.as_slice() {
        if stmt_names(tree, name) {
            return true;
        }
    }
    false
}
