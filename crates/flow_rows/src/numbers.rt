//! The numbers of a part.
use cbase::{List, NoMemory};
use std::alloc::Global;

/// The numbers of a part, and how far they are taken.
#[derive(Drop)]
pub struct Numbers {
    /// The numbers, in order.
    pub items: List<u64>,
    /// How many of them are taken.
    pub next: usize,
    /// Whether one was asked for that is not there, or that is too large.
    pub wrong: bool,
}

impl Numbers {
    ghost use Rattle.std.specs.Prelude.{◌≡◌, ◌≤◌, ◌↔◌, ℕ, IsTrue};
    ghost use Rattle.std.specs.Int.{w64, cast_signed};
    ghost use Rattle.flow_rows.specs.Numbers.{Takes};

    /// Takes the next number, if it is at most `most`, and 0 in its place where it is not.
    pub fn up_to(&mut self, most: u64) -> u64
        ensures at_most { result ≤ most }
        ensures taken { Takes most self.old self.new result }
    {
        match self.items.as_slice().get(self.next) {
            Some(number) if *number <= most => {
                let number = *number;
                self.next += 1;
                number
            }
            Some(_) => {
                self.next += 1;
                self.wrong = true;
                0
            }
            None => {
                self.wrong = true;
                0
            }
        }
    }

    /// The next number, of 32 bits.
    pub fn short(&mut self) -> u32
        ensures { Takes 4294967295 self.old self.new result }
    {
        self.up_to(0xffff_ffff) as u32
    }

    /// The next number, of 8 bits.
    pub fn byte(&mut self) -> u8
        ensures { Takes 255 self.old self.new result }
    {
        self.up_to(0xff) as u8
    }

    /// The next number, 0 for no and 1 for yes.
    pub fn flag(&mut self) -> bool
        ensures { (number : ℕ) × Takes 1 self.old self.new number × (IsTrue result ↔ (number ≡ 1)) }
    {
        self.up_to(1) == 1
    }

    /// The next number.
    pub fn long(&mut self) -> u64
        ensures { Takes 18446744073709551615 self.old self.new result }
    {
        self.up_to(u64::MAX)
    }

    /// The next number, which may be negative.
    pub fn signed(&mut self) -> i64
        ensures { (number : ℕ) × Takes 18446744073709551615 self.old self.new number × (result ≡ cast_signed w64 number) }
    {
        self.up_to(u64::MAX).cast_signed()
    }

    /// So many of the next numbers.
    pub fn some(&mut self, alloc: Global, count: usize) -> Result<List<u32>, NoMemory> {
        let mut numbers: List<u32> = List::new(alloc);
        for _ in 0..count {
            numbers.push(self.short())?;
        }
        Ok(numbers)
    }

    /// All numbers that are left.
    pub fn rest(&mut self, alloc: Global) -> Result<List<u32>, NoMemory> {
        let left = self.items.len().saturating_sub(self.next);
        self.some(alloc, left)
    }
}

/// The number that a word spells; a negative one as the bits of 64.
fn number_of(word: &str) -> Option<u64> {
    match word.parse::<u64>() {
        Ok(number) => Some(number),
        Err(_) => match word.parse::<i64>() {
            Ok(number) => Some(number.cast_unsigned()),
            Err(_) => None,
        },
    }
}

/// The numbers that words spell, where each spells one.
pub fn numbers_of(alloc: Global, text: &str) -> Result<Numbers, NoMemory> {
    let mut items: List<u64> = List::new(alloc);
    let mut wrong = false;
    for word in text.split_whitespace() {
        match number_of(word) {
            Some(number) => items.push(number)?,
            None => wrong = true,
        }
    }
    Ok(Numbers {
        items,
        next: 0,
        wrong,
    })
}
