//! Answers of rows: lines that begin with `= `.

use anyhow::Result;
use span_text::Spot;
use std::alloc::{AllocError, Global};
use std::fmt::Write;

/// A number and what stands before it.
pub fn put_number(out: &mut String, before: &str, number: usize) -> Result<(), AllocError> {
    out.push_str(before)?;
    write!(out, "{number}")
}

/// A line and a column.
pub fn put_spot(out: &mut String, before: &str, spot: Spot) -> Result<(), AllocError> {
    put_number(out, before, spot.line as usize)?;
    put_number(out, ":", spot.column as usize)
}

/// A cause that stands somewhere.
pub fn refused(alloc: Global, cause: &str, spot: Spot) -> Result<String> {
    let mut out = String::from_str(alloc, "= ")?;
    out.push_str(cause)?;
    put_spot(&mut out, " ", spot)?;
    out.push_str("\n")?;
    Ok(out)
}

/// A cause that stands in a file.
pub fn refused_in(alloc: Global, cause: &str, file: u32, spot: Spot) -> Result<String> {
    let mut whole = String::from_str(alloc, cause)?;
    put_number(&mut whole, " file ", file as usize)?;
    refused(alloc, whole.as_str(), spot)
}
