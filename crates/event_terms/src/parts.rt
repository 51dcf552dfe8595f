ghost use Rattle.std.specs.Prelude.{◌≡◌, IfSome};
ghost use Rattle.term_meaning.specs.Patterns.{binds_of, first_of, joined, operand_of, pattern_of, second_of};
ghost use Rattle.event_terms.specs.Parts.{IsWhere, form_pattern, operand_in, pattern_in};

use crate::shown::{Form, Part};
use term_meaning::Link;
use typed_program::Term;

/// An event expression as a part that stands alone.
fn alone(term: &Term) -> Part<'_>
    ensures { pattern_in result ≡ pattern_of term.now }
{
    Part {
        link: Link::Followed,
        first: term,
        rest: &[],
    }
}

#[tactic(auto, using(crate::proofs::Chains::operands))]
fn is_not(term: &Term) -> bool
    ensures { result ≡ (operand_of term.now).negated }
{
    match term {
        Term::Not(_) => true,
        Term::Followed(_, _) => false,
        Term::Or(_, _) => false,
        Term::Xor(_, _) => false,
        Term::And(_, _) => false,
        Term::All(_) => false,
        Term::Group(_, _) => false,
        Term::Wait(_) => false,
        Term::Template(_) => false,
    }
}

/// Whether a part of a chain stands under a `not`.
fn is_negated(part: Part<'_>) -> bool
    ensures { result ≡ (operand_in part.entry).negated }
{
    part.rest.is_empty() && is_not(part.first)
}

/// The last operand of a chain, behind those before it.
#[tactic(auto, unfolding(term_meaning::specs::Patterns::joined))]
fn joined<'a>(link: Link, before: Part<'a>, last: &'a Term) -> Form<'a>
    ensures { form_pattern result ≡ joined link (operand_in before.entry) (operand_of last.now) }
{
    let behind = alone(last);
    match link {
        Link::Followed => Form::Followed(before, behind),
        Link::Or => Form::Or(before, behind),
        Link::Xor => Form::Xor(before, behind),
        Link::And => {
            if is_negated(before) {
                Form::NotAnd(before, behind)
            } else if is_not(last) {
                Form::AndNot(before, behind)
            } else {
                Form::And(before, behind)
            }
        }
    }
}

/// The outermost form of a chain; `None` exactly where nothing stands behind its first operand.
fn chain(part: Part<'_>) -> Option<Form<'_>>
    ensures { IsWhere (operand_of part.entry.first.now).pattern part.entry result }
{
    match part.rest.split_last() {
        None => None,
        Some((last, before)) => Some(joined(
            part.link,
            Part {
                link: part.link,
                first: part.first,
                rest: before,
            },
            last,
        )),
    }
}

/// The outermost form of an event expression.
#[tactic(auto, using(crate::proofs::Chains::operands))]
pub fn form_of(term: &Term) -> Form<'_>
    ensures { form_pattern result ≡ pattern_of term.now }
{
    match term {
        Term::Followed(first, rest) => match chain(Part {
            link: Link::Followed,
            first: first.get(),
            rest: rest.as_slice(),
        }) {
            Some(form) => form,
            None => form_of(first.get()),
        },
        Term::Or(first, rest) => match chain(Part {
            link: Link::Or,
            first: first.get(),
            rest: rest.as_slice(),
        }) {
            Some(form) => form,
            None => form_of(first.get()),
        },
        Term::Xor(first, rest) => match chain(Part {
            link: Link::Xor,
            first: first.get(),
            rest: rest.as_slice(),
        }) {
            Some(form) => form,
            None => form_of(first.get()),
        },
        Term::And(first, rest) => match chain(Part {
            link: Link::And,
            first: first.get(),
            rest: rest.as_slice(),
        }) {
            Some(form) => form,
            None => form_of(first.get()),
        },
        Term::All(inner) => Form::All(alone(inner.get())),
        Term::Not(inner) => form_of(inner.get()),
        Term::Group(inner, within) => match within {
            None => form_of(inner.get()),
            Some(duration) => Form::Within(alone(inner.get()), *duration),
        },
        Term::Wait(duration) => Form::Wait(*duration),
        Term::Template(template) => Form::Template(template),
    }
}

/// The outermost form of a part.
pub fn form(part: Part<'_>) -> Form<'_>
    ensures { form_pattern result ≡ pattern_in part.entry }
{
    match chain(part) {
        Some(form) => form,
        None => form_of(part.first),
    }
}

/// The first operand; an expression that has none stands for it.
#[tactic(auto, unfolding(term_meaning::specs::Patterns::first_of))]
pub fn first_of(whole: Form<'_>) -> Form<'_>
    ensures { form_pattern result ≡ first_of (form_pattern whole.entry) }
{
    match whole {
        Form::All(first) => form(first),
        Form::Followed(first, _) => form(first),
        Form::And(first, _) => form(first),
        Form::AndNot(first, _) => form(first),
        Form::NotAnd(first, _) => form(first),
        Form::Or(first, _) => form(first),
        Form::Xor(first, _) => form(first),
        Form::Within(first, _) => form(first),
        Form::Template(_) => whole,
        Form::Wait(_) => whole,
    }
}

/// The second operand; an expression that has none stands for it.
#[tactic(auto, unfolding(term_meaning::specs::Patterns::second_of))]
pub fn second_of(whole: Form<'_>) -> Form<'_>
    ensures { form_pattern result ≡ second_of (form_pattern whole.entry) }
{
    match whole {
        Form::Followed(_, second) => form(second),
        Form::And(_, second) => form(second),
        Form::AndNot(_, second) => form(second),
        Form::NotAnd(_, second) => form(second),
        Form::Or(_, second) => form(second),
        Form::Xor(_, second) => form(second),
        Form::All(_) => whole,
        Form::Within(_, _) => whole,
        Form::Template(_) => whole,
        Form::Wait(_) => whole,
    }
}

/// The place of the name that a template binds.
#[tactic(auto, unfolding(term_meaning::specs::Patterns::binds_of))]
pub fn binds_of(whole: Form<'_>) -> Option<u16>
    ensures { result ≡ binds_of (form_pattern whole.entry) }
{
    match whole {
        Form::Template(template) => template.binds,
        Form::Wait(_) => None,
        Form::All(_) => None,
        Form::Followed(_, _) => None,
        Form::And(_, _) => None,
        Form::AndNot(_, _) => None,
        Form::NotAnd(_, _) => None,
        Form::Or(_, _) => None,
        Form::Xor(_, _) => None,
        Form::Within(_, _) => None,
    }
}
