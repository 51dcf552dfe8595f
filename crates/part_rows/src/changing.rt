use crate::reader::{DEPTH, Reader, as_elements};
use crate::reading::{fault_shown, value_or_fault, with_births};
use crate::values::{number_shown, shown};
use anyhow::{Result, bail};
use epl_tree::{Comparison, Operator};
use epl_values::{EventShapes, Value};
use sqlite_items::Boxed;
use std::alloc::{AllocError, Global};
use typed_program::{Duration, Method, Term, Terms};
use value_steps::{
    Trouble, alter, calculated, compared, joined, put_entry, starting, store, substring,
    taken_along,
};

fn operator(word: &str) -> Result<Operator> {
    match word {
        "+" => Ok(Operator::Add),
        "-" => Ok(Operator::Subtract),
        "*" => Ok(Operator::Multiply),
        "/" => Ok(Operator::Divide),
        "%" => Ok(Operator::Remainder),
        _ => bail!("no such operator"),
    }
}

fn comparison(word: &str) -> Result<Comparison> {
    match word {
        "=" => Ok(Comparison::Equal),
        "!=" => Ok(Comparison::NotEqual),
        "<" => Ok(Comparison::Less),
        "<=" => Ok(Comparison::LessEqual),
        ">" => Ok(Comparison::Greater),
        ">=" => Ok(Comparison::GreaterEqual),
        _ => bail!("no such comparison"),
    }
}

/// What an operator makes of two values.
pub fn calculate(alloc: Global, types: &EventShapes, line: &mut Reader<'_>) -> Result<String> {
    let left = line.value(alloc, types, DEPTH)?;
    let operator = operator(line.word())?;
    let right = line.value(alloc, types, DEPTH)?;
    let answer = calculated(operator, &left, &right);
    Ok(value_or_fault(alloc, types, &answer)?)
}

/// Whether two values compare so.
pub fn compare(alloc: Global, types: &EventShapes, line: &mut Reader<'_>) -> Result<String> {
    let left = line.value(alloc, types, DEPTH)?;
    let comparison = comparison(line.word())?;
    let right = line.value(alloc, types, DEPTH)?;
    Ok(shown(alloc, &compared(comparison, &left, &right), types)?)
}

/// A part of a string.
pub fn cut(alloc: Global, types: &EventShapes, line: &mut Reader<'_>) -> Result<String> {
    let value = line.value(alloc, types, DEPTH)?;
    let from = line.value(alloc, types, DEPTH)?;
    let to = line.value(alloc, types, DEPTH)?;
    match substring(alloc, &value, &from, &to) {
        Ok(text) => Ok(shown(alloc, &Value::Text(text), types)?),
        Err(Trouble::Fault(fault)) => Ok(fault_shown(alloc, fault)?),
        Err(Trouble::Memory) => bail!("out of memory"),
    }
}

/// Two strings as one.
pub fn join(alloc: Global, types: &EventShapes, line: &mut Reader<'_>) -> Result<String> {
    let left = line.value(alloc, types, DEPTH)?;
    let right = line.value(alloc, types, DEPTH)?;
    Ok(shown(alloc, &Value::Text(joined(alloc, &left, &right)?), types)?)
}

/// A dictionary with a further entry.
pub fn put(alloc: Global, types: &EventShapes, line: &mut Reader<'_>) -> Result<String> {
    let mut pairs = line.dictionary(alloc, types)?;
    let key = line.value(alloc, types, DEPTH)?;
    let value = line.value(alloc, types, DEPTH)?;
    put_entry(alloc, &mut pairs, key, value)?;
    Ok(shown(alloc, &Value::Dictionary(pairs), types)?)
}

/// The value behind a change, or the fault and the value.
fn changed(
    alloc: Global,
    types: &EventShapes,
    value: &Value,
    answer: Result<(), Trouble>,
) -> Result<String> {
    let text = shown(alloc, value, types)?;
    match answer {
        Ok(()) => Ok(text),
        Err(Trouble::Fault(fault)) => {
            let mut told = fault_shown(alloc, fault)?;
            told.push_str(" ")?;
            told.push_str(text.as_str())?;
            Ok(told)
        }
        Err(Trouble::Memory) => bail!("out of memory"),
    }
}

/// A value with another value at the end of a path.
pub fn stored(alloc: Global, types: &EventShapes, line: &mut Reader<'_>) -> Result<String> {
    let mut value = line.value(alloc, types, DEPTH)?;
    let moves = line.moves(alloc, types)?;
    let part = line.value(alloc, types, DEPTH)?;
    let answer = store(alloc, &mut value, moves, part);
    changed(alloc, types, &value, answer)
}

fn method(word: &str) -> Result<Method> {
    match word {
        "append" => Ok(Method::Append),
        "remove" => Ok(Method::Remove),
        "clear" => Ok(Method::Clear),
        "add" => Ok(Method::Add),
        "size" => Ok(Method::Size),
        _ => bail!("no such method"),
    }
}

/// A value whose part at the end of a path a method has changed.
pub fn altered(alloc: Global, types: &EventShapes, line: &mut Reader<'_>) -> Result<String> {
    let mut value = line.value(alloc, types, DEPTH)?;
    let moves = line.moves(alloc, types)?;
    let method = method(line.word())?;
    let arguments = line.sequence(alloc, types)?;
    let answer = alter(alloc, &mut value, moves.as_slice(), method, arguments);
    changed(alloc, types, &value, answer)
}

/// What a new instance takes along of arguments and globals.
pub fn along(alloc: Global, types: &EventShapes, line: &mut Reader<'_>) -> Result<String> {
    let arguments = line.sequence(alloc, types)?;
    let globals = line.sequence(alloc, types)?;
    let taken = taken_along(alloc, &arguments, &globals)?;
    Ok(with_births(alloc, types, &Value::Sequence(as_elements(alloc, taken)?))?)
}

fn seconds(operand: u16) -> Duration {
    Duration {
        operand,
        tenths: false,
    }
}

fn wait(alloc: Global) -> Result<Boxed<Term>, AllocError> {
    Boxed::new(alloc, Term::Wait(seconds(0)))
}

fn waits(alloc: Global) -> Result<Terms, AllocError> {
    let mut terms = Terms::new(alloc);
    terms.push(Term::Wait(seconds(1)))?;
    terms.push(Term::Wait(seconds(2)))?;
    Ok(terms)
}

/// The event expressions by name, over three waits where they have several parts.
fn term(alloc: Global, name: &str) -> Result<Term> {
    match name {
        "wait" => Ok(Term::Wait(seconds(0))),
        "followed" => Ok(Term::Followed(wait(alloc)?, waits(alloc)?)),
        "or" => Ok(Term::Or(wait(alloc)?, waits(alloc)?)),
        "xor" => Ok(Term::Xor(wait(alloc)?, waits(alloc)?)),
        "and" => Ok(Term::And(wait(alloc)?, waits(alloc)?)),
        "all" => Ok(Term::All(wait(alloc)?)),
        "not" => Ok(Term::Not(wait(alloc)?)),
        "group" => Ok(Term::Group(wait(alloc)?, None)),
        "within" => Ok(Term::Group(wait(alloc)?, Some(seconds(1)))),
        _ => bail!("no such event expression"),
    }
}

/// How many leaves begin where an event expression starts.
pub fn leaves(alloc: Global, line: &mut Reader<'_>) -> Result<String> {
    let term = term(alloc, line.word())?;
    Ok(number_shown(alloc, starting(&term))?)
}
