//! Whether the keys of parts ascend, and their variables and registers.
ghost use Rattle.std.specs.Prelude.{◌≡◌, ◌↔◌, map, nat_lt, IsTrue};
ghost use Rattle.graph.specs.Points.{neighbours};
ghost use Rattle.graph.specs.WellFormed.{HasAscendingKeys, are_ascending};

use crate::parts::{Held, KeyedObject, KeyedValue, Named, Parts};

impl Parts {
    /// Whether the keys of the objects ascend, and those of the values. It takes no memory.
    pub fn keys_ascend(&self) -> bool
        ensures { IsTrue result ↔ HasAscendingKeys self.now }
    {
        if objects_ascend(self.objects.as_slice()) {
            values_ascend(self.values.as_slice())
        } else {
            false
        }
    }
}

/// Whether the keys of objects ascend.
fn objects_ascend(entries: &[KeyedObject]) -> bool
    ensures { result ≡ neighbours (λ one other. nat_lt one.key other.key) entries.now }
{
    let mut left = entries;
    while let [first, rest @ ..] = left {
        if let [second, ..] = rest {
            if first.key >= second.key {
                return false;
            }
        }
        left = rest;
    }
    true
}

/// Whether the keys of values ascend.
fn values_ascend(entries: &[KeyedValue]) -> bool
    ensures { result ≡ neighbours (λ one other. nat_lt one.key other.key) entries.now }
{
    let mut left = entries;
    while let [first, rest @ ..] = left {
        if let [second, ..] = rest {
            if first.key >= second.key {
                return false;
            }
        }
        left = rest;
    }
    true
}

/// Whether the variables ascend.
#[tactic(auto, using(crate::proofs::InOrder::ascending_variables))]
pub(crate) fn variables_ascend(variables: &[Named]) -> bool
    ensures { result ≡ are_ascending (map (λ named. named.variable) variables.now) }
{
    variables_rise(variables)
}

/// Whether each variable is below the next one.
fn variables_rise(variables: &[Named]) -> bool
    ensures rise { result ≡ neighbours (λ one other. nat_lt one.variable other.variable) variables.now }
{
    let mut left = variables;
    while let [first, rest @ ..] = left {
        if let [second, ..] = rest {
            if first.variable >= second.variable {
                return false;
            }
        }
        left = rest;
    }
    true
}

/// Whether the registers ascend.
#[tactic(auto, using(crate::proofs::InOrder::ascending_registers))]
pub(crate) fn registers_ascend(registers: &[Held]) -> bool
    ensures { result ≡ are_ascending (map (λ held. held.register) registers.now) }
{
    registers_rise(registers)
}

/// Whether each register is below the next one.
fn registers_rise(registers: &[Held]) -> bool
    ensures rise { result ≡ neighbours (λ one other. nat_lt one.register other.register) registers.now }
{
    let mut left = registers;
    while let [first, rest @ ..] = left {
        if let [second, ..] = rest {
            if first.register >= second.register {
                return false;
            }
        }
        left = rest;
    }
    true
}
