//! The clock of a node, and the clocks that it reads.

ghost use Rattle.std.specs.Prelude.{◌-◌, ◌^◌, ◌<◌};

use crate::arguments::{RowFault, number, numbers};
use cbt_base::{Clock, Duplicate, Hlc, ListClock, StepClock, ms};
use std::alloc::Global;

/// The highest stamp behind which the clock of a row may be called.
const LAST_STAMP: u64 = u64::MAX - 65_537;

/// `clock LAST READING`: the clock after a read, and the stamp of a change with the clock after it.
pub fn clock(out: &mut String, arguments: &[&str]) -> Result<(), RowFault> {
    let [last, reading] = arguments else {
        return Err(RowFault::NoSuchRow);
    };
    let last = number::<u64>(last)?;
    let reading = number::<u64>(reading)?;
    if last > LAST_STAMP {
        return Err(RowFault::NoSuchRow);
    }
    show_read(out, Hlc { last }, reading)?;
    show_change(out, Hlc { last }, reading)
}

fn show_read(out: &mut String, mut clock: Hlc, reading: u64) -> Result<(), RowFault>
    requires { clock.last < 2 ^ 64 - 65537 }
{
    clock.read(reading);
    Ok(write!(out, "{}", clock.last)?)
}

fn show_change(out: &mut String, mut clock: Hlc, reading: u64) -> Result<(), RowFault>
    requires { clock.last < 2 ^ 64 - 65537 }
{
    let stamp = clock.mutate(reading);
    Ok(write!(out, ", stamp {stamp} and {}", clock.last)?)
}

/// `ms STAMP`
pub fn milliseconds(out: &mut String, arguments: &[&str]) -> Result<(), RowFault> {
    let [stamp] = arguments else {
        return Err(RowFault::NoSuchRow);
    };
    let stamp = number::<u64>(stamp)?;
    Ok(write!(out, "{}", ms(stamp))?)
}

/// `step_clock NEXT STEP`: the first three readings.
pub fn step_clock(out: &mut String, arguments: &[&str]) -> Result<(), RowFault> {
    let [next, step] = arguments else {
        return Err(RowFault::NoSuchRow);
    };
    let next = number::<u64>(next)?;
    let step = number::<u64>(step)?;
    show_three(out, &mut StepClock { next, step })
}

/// `list_clock READINGS`: the first three readings, and those of a copy.
pub fn list_clock(alloc: Global, out: &mut String, arguments: &[&str]) -> Result<(), RowFault> {
    let [readings] = arguments else {
        return Err(RowFault::NoSuchRow);
    };
    let readings = numbers(alloc, readings)?;
    let mut clock = ListClock { readings, at: 0 };
    let mut copy = clock.copy(alloc)?;
    show_three(out, &mut clock)?;
    out.push_str(", its copy ")?;
    show_three(out, &mut copy)
}

fn show_three<C: Clock>(out: &mut String, clock: &mut C) -> Result<(), RowFault> {
    let three = [clock.read(), clock.read(), clock.read()];
    Ok(write!(out, "{three:?}")?)
}
