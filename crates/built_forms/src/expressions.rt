ghost use Rattle.std.specs.Prelude.{◌≡◌, map};
ghost use Rattle.built_forms.specs.Rows.{joined, first_of, behind};
ghost use Rattle.built_forms.specs.Expressions.{missing_in, missing_in_suffix, missing_in_link, missing_in_entry, missing_in_optional};

use epl_tree::{Entries, Entry, Expr, ExprNode, Exprs, Link, Links, Suffix, SuffixNode, Suffixes};
use span_text::Spot;

/// The first form in an expression that isn't built.
#[cycle(expressions)]
#[tactic(auto, using(crate::proofs::Row::rows))]
pub fn in_expr(tree: &Expr) -> Option<Spot>
    ensures { result ≡ first_of (missing_in tree.now) }
{
    match &tree.node {
        ExprNode::Or(first, rest) => next_exprs(in_expr(first.get()), rest),
        ExprNode::Xor(first, rest) => next_exprs(in_expr(first.get()), rest),
        ExprNode::And(first, rest) => next_exprs(in_expr(first.get()), rest),
        ExprNode::Not(part) => in_expr(part.get()),
        ExprNode::Compare(left, _, right) => next_expr(in_expr(left.get()), right.get()),
        ExprNode::Sum(first, links) => next_links(in_expr(first.get()), links),
        ExprNode::Product(first, links) => next_links(in_expr(first.get()), links),
        ExprNode::Minus(part) => in_expr(part.get()),
        ExprNode::Postfix(first, suffixes) => next_suffixes(in_expr(first.get()), suffixes),
        ExprNode::Integer(_) => None,
        ExprNode::Quoted(_) => None,
        ExprNode::Boolean(_) => None,
        ExprNode::Name(_) => None,
        ExprNode::Call(_, args) => next_exprs(None, args),
        ExprNode::Sequence(items) => next_exprs(None, items),
        ExprNode::Dictionary(entries) => next_entries(None, entries),
        ExprNode::New(_) => None,
        ExprNode::Context(_) => Some(tree.spot),
        ExprNode::ContextCurrent => Some(tree.spot),
        ExprNode::Group(part) => in_expr(part.get()),
    }
}

/// What was found before, or else the first form in an expression that isn't built.
#[cycle(expressions)]
pub fn next_expr(before: Option<Spot>, tree: &Expr) -> Option<Spot>
    ensures { result ≡ behind before (missing_in tree.now) }
{
    match before {
        Some(spot) => Some(spot),
        None => in_expr(tree),
    }
}

#[cycle(expressions)]
#[tactic(auto, using(crate::proofs::Row::rows))]
fn next_exprs(before: Option<Spot>, trees: &Exprs) -> Option<Spot>
    ensures { result ≡ behind before (joined (map missing_in trees.now)) }
{
    let mut found = before;
    'trees: for tree in trees.as_slice() {
        found = next_expr(found, tree);
    }
    found
}

#[cycle(expressions)]
fn next_link(before: Option<Spot>, link: &Link) -> Option<Spot>
    ensures { result ≡ behind before (missing_in_link link.now) }
{
    next_expr(before, &link.operand)
}

#[cycle(expressions)]
#[tactic(auto, using(crate::proofs::Row::rows))]
fn next_links(before: Option<Spot>, links: &Links) -> Option<Spot>
    ensures { result ≡ behind before (joined (map missing_in_link links.now)) }
{
    let mut found = before;
    'links: for link in links.as_slice() {
        found = next_link(found, link);
    }
    found
}

#[cycle(expressions)]
#[tactic(auto, using(crate::proofs::Row::rows))]
fn next_entry(before: Option<Spot>, entry: &Entry) -> Option<Spot>
    ensures { result ≡ behind before (missing_in_entry entry.now) }
{
    next_expr(next_expr(before, &entry.key), &entry.value)
}

#[cycle(expressions)]
#[tactic(auto, using(crate::proofs::Row::rows))]
fn next_entries(before: Option<Spot>, entries: &Entries) -> Option<Spot>
    ensures { result ≡ behind before (joined (map missing_in_entry entries.now)) }
{
    let mut found = before;
    'entries: for entry in entries.as_slice() {
        found = next_entry(found, entry);
    }
    found
}

#[cycle(expressions)]
fn in_suffix(suffix: &Suffix) -> Option<Spot>
    ensures { result ≡ first_of (missing_in_suffix suffix.now) }
{
    match &suffix.node {
        SuffixNode::Field(_) => None,
        SuffixNode::Method(_, args) => next_exprs(None, args),
        SuffixNode::Index(part) => in_expr(part.get()),
    }
}

#[cycle(expressions)]
fn next_suffix(before: Option<Spot>, suffix: &Suffix) -> Option<Spot>
    ensures { result ≡ behind before (missing_in_suffix suffix.now) }
{
    match before {
        Some(spot) => Some(spot),
        None => in_suffix(suffix),
    }
}

/// What was found before, or else the first form in suffixes that isn't built.
#[cycle(expressions)]
#[tactic(auto, using(crate::proofs::Row::rows))]
pub fn next_suffixes(before: Option<Spot>, suffixes: &Suffixes) -> Option<Spot>
    ensures { result ≡ behind before (joined (map missing_in_suffix suffixes.now)) }
{
    let mut found = before;
    'suffixes: for suffix in suffixes.as_slice() {
        found = next_suffix(found, suffix);
    }
    found
}

/// The first form that isn't built in an expression that may be left out.
pub fn in_optional(tree: &Option<Expr>) -> Option<Spot>
    ensures { result ≡ first_of (missing_in_optional tree.now) }
{
    match tree {
        None => None,
        Some(tree) => in_expr(tree),
    }
}
