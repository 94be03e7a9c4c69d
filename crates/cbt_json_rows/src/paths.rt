//! Paths.

use crate::arguments::{RowFault, number};
use cbt_base::{Duplicate, List};
use cbt_subdoc::{Part, Path};
use std::alloc::Global;

/// The most parts or bytes of a path that a row makes.
const LARGEST: usize = 2048;

/// `path TEXT`: its parts.
pub fn path(alloc: Global, out: &mut String, text: &str) -> Result<(), RowFault> {
    match Path::parse(alloc, text) {
        Ok(path) => show_parts(out, path.copy(alloc)?.parts()),
        Err(fault) => Ok(write!(out, "{fault}")?),
    }
}

fn show_parts(out: &mut String, parts: &[Part]) -> Result<(), RowFault> {
    let mut comma = "";
    for part in parts {
        match part {
            Part::Name(name) => write!(out, "{comma}name {name:?}")?,
            Part::Place(at) => write!(out, "{comma}place {at}")?,
            Part::Last => write!(out, "{comma}last")?,
        }
        comma = ", ";
    }
    Ok(())
}

/// `path_of_parts COUNT`: a name with so many parts in all.
pub fn path_of_parts(alloc: Global, out: &mut String, argument: &str) -> Result<(), RowFault> {
    let count = number::<usize>(argument)?.min(LARGEST);
    let mut text = String::from_str(alloc, "a")?;
    text.push_str(&"[0]".repeat(alloc, count.saturating_sub(1))?)?;
    count_parts(alloc, out, &text)
}

/// `long_path BYTES`: a name of so many bytes.
pub fn long_path(alloc: Global, out: &mut String, argument: &str) -> Result<(), RowFault> {
    let count = number::<usize>(argument)?.min(LARGEST);
    count_parts(alloc, out, &"x".repeat(alloc, count)?)
}

fn count_parts(alloc: Global, out: &mut String, text: &str) -> Result<(), RowFault> {
    match Path::parse(alloc, text) {
        Ok(path) => Ok(write!(out, "{} parts", path.parts().len())?),
        Err(fault) => Ok(write!(out, "{fault}")?),
    }
}

/// `last_items COUNT`: the path of so many parts `[-1]`.
pub fn last_items(alloc: Global, out: &mut String, argument: &str) -> Result<(), RowFault> {
    let mut parts = List::new(alloc);
    for _ in 0..number::<u16>(argument)? {
        parts.push(Part::Last)?;
    }
    match Path::of(parts) {
        Some(path) => Ok(write!(out, "{} parts", path.parts().len())?),
        None => Ok(out.push_str("none")?),
    }
}
