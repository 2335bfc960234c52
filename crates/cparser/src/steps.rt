ghost use Rattle.std.specs.Prelude.{◌≡◌, ◌+◌, ◌≤◌, OnOk, length};
ghost use Rattle.cparser.specs.State.{rest, skipped, lost, stopped, back_at, with_levels};
ghost use Rattle.cparser.specs.Steps.{mark, word, name, mark_or_back, whole, back_unless_going, write, make, wrap, join, declare, enter, leave};

use crate::point::Point;
use crate::reader::Reader;
use crate::status::Status;
use cbase::NoMemory;
use cevents::{Event, bytes_at};

impl<'a> Reader<'a> {
    /// Nothing is read.
    pub fn lose(&mut self)
        ensures { self.new ≡ lost self.old }
    {
        self.status = Status::Nothing;
    }

    /// Goes over so many tokens.
    #[tactic(auto, using(crate::proofs::Rests::fits_behind))]
    pub fn skip(&mut self, count: usize)
        requires { count ≤ length (rest self.old) }
        ensures { self.new ≡ skipped count self.old }
    {
        self.at += count;
    }

    /// What is written so far is all that is read.
    pub fn stop(&mut self)
        ensures { self.new ≡ stopped self.old }
    {
        self.status = Status::Stopped;
    }

    /// What was written up to the point is all that is read.
    pub fn go_back(&mut self, point: Point)
        ensures { self.new ≡ back_at point self.old }
    {
        self.at = point.at;
        self.status = Status::Stopped;
        self.events.truncate(point.events);
    }

    /// Goes over the mark, or nothing is read.
    #[tactic(auto, unfolding(crate::specs::Steps::mark))]
    pub fn mark(&mut self, bytes: &[u8])
        ensures { self.new ≡ mark bytes.now self.old }
    {
        if !self.goes() {
            return;
        }
        if self.has_mark(bytes) {
            self.skip(1);
        } else {
            self.lose();
        }
    }

    /// Goes over the word, or nothing is read.
    #[tactic(auto, unfolding(crate::specs::Steps::word))]
    pub fn word(&mut self, bytes: &[u8])
        ensures { self.new ≡ word bytes.now self.old }
    {
        if !self.goes() {
            return;
        }
        if self.has_word(bytes) {
            self.skip(1);
        } else {
            self.lose();
        }
    }

    /// Goes over a name, or nothing is read.
    #[tactic(auto, unfolding(crate::specs::Steps::name))]
    pub fn name(&mut self)
        ensures { self.new ≡ name self.old }
    {
        if !self.goes() {
            return;
        }
        if self.has_name() {
            self.skip(1);
        } else {
            self.lose();
        }
    }

    /// Goes over the mark, or back to the point.
    #[tactic(auto, unfolding(crate::specs::Steps::mark_or_back))]
    pub fn mark_or_back(&mut self, bytes: &[u8], point: Point)
        ensures { self.new ≡ mark_or_back bytes.now point self.old }
    {
        if !self.goes() {
            return;
        }
        if self.has_mark(bytes) {
            self.skip(1);
        } else {
            self.go_back(point);
        }
    }

    /// What is read has to be whole.
    #[tactic(auto, unfolding(crate::specs::Steps::whole))]
    pub fn whole(&mut self)
        ensures { self.new ≡ whole self.old }
    {
        if !self.goes() {
            self.lose();
        }
    }

    /// Goes back to the point, unless it goes on.
    #[tactic(auto, unfolding(crate::specs::Steps::back_unless_going))]
    pub fn back_unless_going(&mut self, point: Point)
        ensures { self.new ≡ back_unless_going point self.old }
    {
        if !self.goes() {
            self.go_back(point);
        }
    }

    /// Writes a part that is read to its end.
    #[tactic(auto, unfolding(crate::specs::Steps::write))]
    pub fn write(&mut self, event: Event) -> Result<(), NoMemory>
        ensures { OnOk result (self.new ≡ write event self.old) }
    {
        if self.goes() {
            self.events.push(event)?;
        }
        Ok(())
    }

    /// Writes a tree that is read to its end.
    #[tactic(auto, unfolding(crate::specs::Steps::make))]
    pub fn make(&mut self, event: Event) -> Result<(), NoMemory>
        ensures { OnOk result (self.new ≡ make event self.old) }
    {
        if self.goes() {
            self.events.push(event)?;
            self.deepen()?;
        }
        Ok(())
    }

    /// What is read has one level more. A count of levels that fits no number is told as want of memory: it needs more
    /// tokens than memory holds.
    fn deepen(&mut self) -> Result<(), NoMemory>
        ensures { OnOk result (self.new ≡ with_levels (self.old.levels + 1) self.old) }
    {
        if self.levels == usize::MAX {
            return Err(NoMemory);
        }
        self.levels += 1;
        Ok(())
    }

    /// Writes a tree that is read to its end, also where the reader stopped behind the last of its parts.
    #[tactic(auto, unfolding(crate::specs::Steps::wrap))]
    pub fn wrap(&mut self, event: Event) -> Result<(), NoMemory>
        ensures { OnOk result (self.new ≡ wrap event self.old) }
    {
        match self.status {
            Status::Going => {
                self.events.push(event)?;
                self.deepen()
            }
            Status::Stopped => {
                self.events.push(event)?;
                Ok(())
            }
            Status::Nothing => Ok(()),
        }
    }

    /// Writes a tree that is read to its end. Where its right operand is nothing, goes back to the point.
    #[tactic(auto, unfolding(crate::specs::Steps::join))]
    pub fn join(&mut self, point: Point, event: Event) -> Result<(), NoMemory>
        ensures { OnOk result (self.new ≡ join point event self.old) }
    {
        match self.status {
            Status::Going => {
                self.events.push(event)?;
                self.deepen()
            }
            Status::Stopped => {
                self.events.push(event)?;
                Ok(())
            }
            Status::Nothing => {
                self.go_back(point);
                Ok(())
            }
        }
    }

    /// Declares the name at a token.
    #[tactic(auto, unfolding(crate::specs::Steps::declare))]
    pub fn declare(&mut self, at: u32, typedef: bool) -> Result<(), NoMemory>
        ensures { OnOk result (self.new ≡ declare at typedef self.old) }
    {
        if self.goes() {
            let bytes = bytes_at(self.row, at);
            self.scope.declare(self.alloc, bytes, typedef)?;
        }
        Ok(())
    }

    /// Enters a scope.
    #[tactic(auto, unfolding(crate::specs::Steps::enter))]
    pub fn enter(&mut self) -> Result<(), NoMemory>
        ensures { OnOk result (self.new ≡ enter self.old) }
    {
        if self.goes() {
            self.scope.enter(self.alloc)?;
        }
        Ok(())
    }

    /// Leaves the innermost scope.
    #[tactic(auto, unfolding(crate::specs::Steps::leave))]
    pub fn leave(&mut self)
        ensures { self.new ≡ leave self.old }
    {
        if self.goes() {
            self.scope.leave();
        }
    }
}
