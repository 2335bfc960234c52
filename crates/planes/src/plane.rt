ghost use Rattle.std.specs.Prelude.{◌≡◌, ◌↔◌, ◌+◌, ◌≤◌, ◌<◌, ◌++◌, length, take, drop, replicate, slice_get, IsTrue, IfOk, IfSome, None, Some, All};
ghost use Rattle.std.specs.List.{AllZip};
ghost use Rattle.planes.specs.Classes.{IsClass, filled, highest, IsFirstAbove};

use crate::change::{copy_bytes, fill_bytes, raise_bytes};
use crate::class::MOST_BYTES;
use crate::search::{is_at_most, low_front, same_front};
use cbase::NoMemory;
use std::alloc::Global;
use std::marker::Model;

/// A class for each byte of an object, at most [`MOST_BYTES`](crate::MOST_BYTES).
///
/// Contracts see it as the list of the bytes' classes. Only [`Plane::new`] and [`Plane::copied`] take memory.
#[derive(Drop)]
pub struct Plane {
    bytes: Vec<u8>,
}

impl Model for Plane {
    ghost use Rattle.std.specs.Prelude.{ℕ, List};

    ghost Value = { List ℕ };

    ghost use Rattle.planes.specs.Kept.{IsPlane};

    ghost view = { λ plane. plane.bytes.items };

    ghost invariant = { IsPlane };
}

impl Plane {
    /// A plane of `length` bytes, all of one class.
    pub fn new(alloc: Global, length: u32, class: u8) -> Result<Plane, NoMemory>
        requires bytes { length ≤ MOST_BYTES }
        requires class { IsClass class }
        ensures { IfOk result (λ plane. plane ≡ replicate length class) }
    {
        let bytes = Vec::from_elem(alloc, class, length as usize)?;
        Ok(Plane { bytes })
    }

    /// A plane with the same classes.
    pub fn copied(&self, alloc: Global) -> Result<Plane, NoMemory>
        ensures { IfOk result (λ plane. plane ≡ self.now) }
    {
        let bytes = Vec::from_slice(alloc, self.bytes.as_slice())?;
        Ok(Plane { bytes })
    }

    /// How many bytes it has a class for.
    pub fn len(&self) -> u32
        ensures bytes { result ≡ length self.now }
        ensures most { result ≤ MOST_BYTES }
        ensures classes { All IsClass self.now }
    {
        self.bytes.len() as u32
    }

    /// Whether it has no byte.
    pub fn is_empty(&self) -> bool
        ensures { IsTrue result ↔ (length self.now ≡ 0) }
    {
        self.bytes.is_empty()
    }

    /// The class of the byte `at`. It takes no memory.
    pub fn class_at(&self, at: u32) -> u8
        requires { at < length self.now }
        ensures value { slice_get self.now at ≡ Some result }
        ensures class { IsClass result }
    {
        self.bytes[at as usize]
    }

    /// Gives `count` bytes from `from` on a class; the others keep theirs. It takes no memory.
    pub fn fill(&mut self, from: u32, count: u32, class: u8)
        requires range { from + count ≤ length self.old }
        requires class { IsClass class }
        ensures { self.new ≡ filled self.old from count class }
    {
        let from = from as usize;
        let end = from + count as usize;
        fill_bytes(&mut self.bytes[from..end], class);
    }

    /// Gives `count` bytes from `from` on the classes that `other` has from its byte `other_from` on; the others keep
    /// theirs. It takes no memory.
    pub fn copy_range(&mut self, from: u32, other: &Plane, other_from: u32, count: u32)
        requires range { from + count ≤ length self.old }
        requires other_range { other_from + count ≤ length other.now }
        ensures { self.new ≡ take from self.old ++ take count (drop other_from other.now) ++ drop (from + count) self.old }
    {
        let from = from as usize;
        let other_from = other_from as usize;
        let count = count as usize;
        copy_bytes(
            &mut self.bytes[from..from + count],
            &other.bytes[other_from..other_from + count],
        );
    }

    /// Whether each of `count` bytes from `from` on has this class. It takes no memory.
    pub fn all_are(&self, from: u32, count: u32, class: u8) -> bool
        requires range { from + count ≤ length self.now }
        requires class { IsClass class }
        ensures { IsTrue result ↔ All (λ other. other ≡ class) (take count (drop from self.now)) }
    {
        let from = from as usize;
        let count = count as usize;
        same_front(&self.bytes[from..from + count], class) == count
    }

    /// Whether none of `count` bytes from `from` on has a class above `class`. It takes no memory.
    pub fn all_at_most(&self, from: u32, count: u32, class: u8) -> bool
        requires range { from + count ≤ length self.now }
        requires class { IsClass class }
        ensures { IsTrue result ↔ All (λ other. other ≤ class) (take count (drop from self.now)) }
    {
        let from = from as usize;
        let count = count as usize;
        low_front(&self.bytes[from..from + count], class) == count
    }

    /// The first byte from `from` on that has a class above `class`. It takes no memory.
    pub fn first_above(&self, from: u32, class: u8) -> Option<u32>
        requires from { from ≤ length self.now }
        requires class { IsClass class }
        ensures none { (result ≡ None) ↔ All (λ other. other ≤ class) (drop from self.now) }
        ensures found { IfSome result (λ at. IsFirstAbove self.now from class at) }
    {
        let at = from as usize + low_front(&self.bytes[from as usize..], class);
        if at < self.bytes.len() {
            Some(at as u32)
        } else {
            None
        }
    }

    /// Gives each byte the greater of its class and that in `other`. It takes no memory.
    pub fn max_with(&mut self, other: &Plane)
        requires { length self.old ≡ length other.now }
        ensures { self.new ≡ highest self.old other.now }
    {
        raise_bytes(&mut self.bytes, other.bytes.as_slice());
    }

    /// Whether no byte has a class above that in `other`. It takes no memory.
    #[tactic(auto, using(crate::proofs::Pairs::at_most_is))]
    pub fn at_most(&self, other: &Plane) -> bool
        requires { length self.now ≡ length other.now }
        ensures { IsTrue result ↔ AllZip (λ class greater. class ≤ greater) self.now other.now }
    {
        is_at_most(self.bytes.as_slice(), other.bytes.as_slice())
    }
}
