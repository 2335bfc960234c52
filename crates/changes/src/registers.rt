//! Registers that hold other values.
ghost use Rattle.std.specs.Prelude.{◌≡◌, [], ◌∷◌, ◌++◌, not, nat_lt, IfOk, OnOk};
ghost use Rattle.std.specs.List.{filter};
ghost use Rattle.graph.specs.Maps.{held_by};
ghost use Rattle.changes.specs.Parts.{is_among, without_registers, with_register};

use cbase::{List, NoMemory};
use graph::{Held, Parts};
use std::alloc::Global;

/// Whether a register is among these.
fn is_among(registers: &[u32], register: u32) -> bool
    ensures { result ≡ is_among registers.now register }
{
    let mut left = registers;
    while let [first, rest @ ..] = left {
        if *first == register {
            return true;
        }
        left = rest;
    }
    false
}

/// Puts the registers but these behind others.
fn keep_others(registers: &[Held], gone: &[u32], kept: &mut List<Held>) -> Result<(), NoMemory>
    ensures { OnOk result (kept.new ≡ kept.old ++ filter (λ held. not (is_among gone.now held.register)) registers.now) }
{
    let mut left = registers;
    while let [first, rest @ ..] = left {
        if !is_among(gone, first.register) {
            kept.push(*first)?;
        }
        left = rest;
    }
    Ok(())
}

/// Puts the registers below one behind others.
fn keep_below(registers: &[Held], bound: u32, kept: &mut List<Held>) -> Result<(), NoMemory>
    ensures { OnOk result (kept.new ≡ kept.old ++ filter (λ held. nat_lt held.register bound) registers.now) }
{
    let mut left = registers;
    while let [first, rest @ ..] = left {
        if first.register < bound {
            kept.push(*first)?;
        }
        left = rest;
    }
    Ok(())
}

/// Puts the registers above one behind others.
fn keep_above(registers: &[Held], bound: u32, kept: &mut List<Held>) -> Result<(), NoMemory>
    ensures { OnOk result (kept.new ≡ kept.old ++ filter (λ held. nat_lt bound held.register) registers.now) }
{
    let mut left = registers;
    while let [first, rest @ ..] = left {
        if bound < first.register {
            kept.push(*first)?;
        }
        left = rest;
    }
    Ok(())
}

/// A graph's parts in which these registers hold nothing.
pub fn without_registers(alloc: Global, parts: Parts, gone: &[u32]) -> Result<Parts, NoMemory>
    ensures { IfOk result (λ after. after ≡ without_registers gone.now parts) }
{
    let mut kept = List::new(alloc);
    match keep_others(parts.registers.as_slice(), gone, &mut kept) {
        Ok(()) => {
            let mut after = parts;
            after.registers = kept;
            Ok(after)
        }
        Err(error) => {
            drop(parts);
            Err(error)
        }
    }
}

/// Puts the registers of a graph, of which one holds the value with a key, into an empty list.
fn put_held(registers: &[Held], into: u32, key: u32, kept: &mut List<Held>) -> Result<(), NoMemory>
    requires empty { kept.old ≡ [] }
    ensures { OnOk result (kept.new ≡ filter (λ held. nat_lt held.register into) registers.now ++ record { register = into; value = key } ∷ filter (λ held. nat_lt into held.register) registers.now) }
{
    keep_below(registers, into, kept)?;
    kept.push(Held {
        register: into,
        value: key,
    })?;
    keep_above(registers, into, kept)?;
    Ok(())
}

/// A graph's parts in which a register holds the value with a key.
pub fn with_register(alloc: Global, parts: Parts, into: u32, key: u32) -> Result<Parts, NoMemory>
    ensures { IfOk result (λ after. after ≡ with_register into key parts) }
{
    let mut kept = List::new(alloc);
    match put_held(parts.registers.as_slice(), into, key, &mut kept) {
        Ok(()) => {
            let mut after = parts;
            after.registers = kept;
            Ok(after)
        }
        Err(error) => {
            drop(parts);
            Err(error)
        }
    }
}

/// The key of the value that a register holds.
pub fn held_by(registers: &[Held], register: u32) -> Option<u32>
    ensures { result ≡ held_by registers.now register }
{
    let mut left = registers;
    while let [first, rest @ ..] = left {
        if first.register == register {
            return Some(first.value);
        }
        left = rest;
    }
    None
}
