//! What stands at a key, found by halves.
ghost use Rattle.std.specs.Prelude.{◌≡◌};
ghost use Rattle.std.specs.Option.{option_copied};
ghost use Rattle.graph.specs.Maps.{object_at, value_at};
ghost use Rattle.graph.specs.WellFormed.{HasAscendingKeys};

use crate::object::Object;
use crate::parts::Parts;
use crate::value::Value;

impl Parts {
    /// The object with a key. None exactly where no object has it. It takes no memory.
    pub fn object(&self, key: u32) -> Option<&Object>
        requires { HasAscendingKeys self.now }
        ensures { option_copied result ≡ object_at self.now.objects key }
    {
        object_with(self, key)
    }

    /// The value with a key. None exactly where no value has it. It takes no memory.
    pub fn value(&self, key: u32) -> Option<Value>
        requires { HasAscendingKeys self.now }
        ensures { result ≡ value_at self.now.values key }
    {
        value_with(self, key)
    }
}

/// The value with a key.
pub(crate) fn value_with(parts: &Parts, key: u32) -> Option<Value>
    requires { HasAscendingKeys parts.now }
    ensures { result ≡ value_at parts.now.values key }
{
    let mut entries = parts.values.as_slice();
    while entries.len() > 1 {
        let middle = entries.len() / 2;
        let (front, behind) = entries.split_at(middle);
        entries = if key < entries[middle].key {
            front
        } else {
            behind
        };
    }
    match entries {
        [] => None,
        [entry, ..] => {
            if entry.key == key {
                Some(entry.value)
            } else {
                None
            }
        }
    }
}

/// The object with a key.
pub(crate) fn object_with(parts: &Parts, key: u32) -> Option<&Object>
    requires { HasAscendingKeys parts.now }
    ensures { option_copied result ≡ object_at parts.now.objects key }
{
    let mut entries = parts.objects.as_slice();
    while entries.len() > 1 {
        let middle = entries.len() / 2;
        let (front, behind) = entries.split_at(middle);
        entries = if key < entries[middle].key {
            front
        } else {
            behind
        };
    }
    match entries {
        [] => None,
        [entry, ..] => {
            if entry.key == key {
                Some(&entry.object)
            } else {
                None
            }
        }
    }
}
