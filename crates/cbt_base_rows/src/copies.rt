//! Lists, maps and pairs: the calls that take memory.

use crate::arguments::{RowFault, number, numbers};
use cbt_base::{DocId, Duplicate, List, Map, Text};
use std::alloc::Global;

/// `list ITEMS LAST AT ITEM MORE`: the items with `LAST` behind them, `ITEM` put in at a place and
/// `MORE` behind all, then all of it twice; and the last item of the copy.
pub fn list(alloc: Global, out: &mut String, arguments: &[&str]) -> Result<(), RowFault> {
    let [items, last, at, item, more] = arguments else {
        return Err(RowFault::NoSuchRow);
    };
    let mut list = numbers(alloc, items)?;
    list.push(number(last)?)?;
    insert(&mut list, at, item)?;
    extend(alloc, &mut list, more)?;
    show_twice(alloc, out, &mut list)
}

fn insert(list: &mut List<u64>, at: &str, item: &str) -> Result<(), RowFault> {
    let at = number::<usize>(at)?;
    let item = number(item)?;
    if at > list.len() {
        return Err(RowFault::NoSuchRow);
    }
    Ok(list.insert(at, item)?)
}

fn extend(alloc: Global, list: &mut List<u64>, more: &str) -> Result<(), RowFault> {
    let more = numbers(alloc, more)?;
    Ok(list.extend_from_slice(more.as_slice())?)
}

fn show_twice(alloc: Global, out: &mut String, list: &mut List<u64>) -> Result<(), RowFault> {
    list.append(list.copy(alloc)?)?;
    show_items(out, list.as_slice())?;
    show_last(out, list.pop())
}

fn show_items(out: &mut String, items: &[u64]) -> Result<(), RowFault> {
    Ok(write!(out, "{items:?}")?)
}

fn show_last(out: &mut String, last: Option<u64>) -> Result<(), RowFault> {
    match last {
        Some(last) => Ok(write!(out, ", the last {last}")?),
        None => Ok(()),
    }
}

/// `map NAME NAME=NUMBER ..`: the pairs, and those of a copy without the first name.
pub fn map(alloc: Global, out: &mut String, arguments: &[&str]) -> Result<(), RowFault> {
    let [name, pairs @ ..] = arguments else {
        return Err(RowFault::NoSuchRow);
    };
    let name = doc(alloc, name)?;
    let map = map_of(alloc, pairs)?;
    show_pairs(out, &map)?;
    show_without(alloc, out, &map, &name)
}

fn show_without(
    alloc: Global,
    out: &mut String,
    map: &Map<DocId, Option<u64>>,
    name: &DocId,
) -> Result<(), RowFault> {
    let mut copy = map.copy(alloc)?;
    let had = copy.remove(name);
    write!(out, "; without what had {had:?}: ")?;
    show_pairs(out, &copy)
}

fn map_of(alloc: Global, pairs: &[&str]) -> Result<Map<DocId, Option<u64>>, RowFault> {
    let mut map = Map::new(alloc);
    for pair in pairs {
        let Some((name, value)) = pair.split_once('=') else {
            return Err(RowFault::NoSuchRow);
        };
        let value = number(value)?;
        map.insert(doc(alloc, name)?, Some(value))?;
    }
    Ok(map)
}

fn doc(alloc: Global, name: &str) -> Result<DocId, RowFault> {
    match DocId::new(alloc, name) {
        Ok(doc) => Ok(doc),
        Err(_) => Err(RowFault::NoSuchRow),
    }
}

fn show_pairs(out: &mut String, map: &Map<DocId, Option<u64>>) -> Result<(), RowFault> {
    write!(out, "{} names", map.len())?;
    for (name, value) in map.iter() {
        write!(out, ", {name}={value:?}")?;
    }
    Ok(())
}

/// `pair TEXT NUMBER`: the copy of a pair.
pub fn pair(alloc: Global, out: &mut String, arguments: &[&str]) -> Result<(), RowFault> {
    let [text, value] = arguments else {
        return Err(RowFault::NoSuchRow);
    };
    let value = number::<u16>(value)?;
    let pair = (Text::from_str(alloc, text)?, value);
    let copy = pair.copy(alloc)?;
    show_pair(out, copy.0.as_str(), copy.1)
}

fn show_pair(out: &mut String, text: &str, value: u16) -> Result<(), RowFault> {
    Ok(write!(out, "{text} {value}")?)
}
