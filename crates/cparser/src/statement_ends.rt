ghost use Rattle.std.specs.Prelude.{◌≡◌, ◌≤◌, ◌-◌, IfOk, OnOk, length};
ghost use Rattle.cparser.specs.State.{rest};
ghost use Rattle.cparser.specs.StatementSteps.{declared, evaluated, empty_statement, done, do_tested, broken, break_behind, continued, continue_behind, returned, blocked};

use crate::numbers::number;
use crate::reader::Reader;
use cbase::NoMemory;
use cevents::Event;

impl<'a> Reader<'a> {
    /// The number of the token that was read last.
    pub fn last(&self) -> Result<u32, NoMemory>
        ensures { IfOk result (λ last. last ≡ self.now.at - 1) }
    {
        number(self.at.saturating_sub(1))
    }

    /// Writes a declaration as a statement that begins with the token `first`.
    #[tactic(auto, unfolding(crate::specs::StatementSteps::declared))]
    pub fn declared(&mut self, first: u32) -> Result<(), NoMemory>
        ensures { OnOk result (self.new ≡ declared first self.old) }
    {
        let last = self.last()?;
        self.make(Event::Declare { first, last })
    }

    /// Writes an expression as a statement that begins with the token `first` (C11 6.8.3).
    #[tactic(auto, unfolding(crate::specs::StatementSteps::evaluated))]
    pub fn evaluated(&mut self, first: u32) -> Result<(), NoMemory>
        ensures { OnOk result (self.new ≡ evaluated first self.old) }
    {
        let last = self.last()?;
        self.make(Event::Eval { first, last })
    }

    /// Reads a `;` that stands there as a statement with no expression (C11 6.8.3).
    pub fn empty_statement(&mut self) -> Result<(), NoMemory>
        requires { 1 ≤ length (rest self.old) }
        ensures { OnOk result (self.new ≡ empty_statement self.old) }
    {
        let at = self.here()?;
        self.skip(1);
        self.write(Event::NoExpression)?;
        self.make(Event::Eval {
            first: at,
            last: at,
        })
    }

    /// Writes a `do` that begins with the token `first` and whose test ends with the `)` at `close` (C11 6.8.5.2).
    #[tactic(auto, unfolding(crate::specs::StatementSteps::done))]
    pub fn done(&mut self, first: u32, close: u32) -> Result<(), NoMemory>
        ensures { OnOk result (self.new ≡ done first close self.old) }
    {
        let last = self.last()?;
        self.make(Event::Do { first, close, last })
    }

    /// Reads a `do` from behind its test on, whose `)` was read last (C11 6.8.5.2).
    #[tactic(auto, unfolding(crate::specs::StatementSteps::do_tested))]
    pub fn do_tested(&mut self, first: u32) -> Result<(), NoMemory>
        ensures { OnOk result (self.new ≡ do_tested first self.old) }
    {
        let close = self.last()?;
        self.mark(b";");
        self.done(first, close)
    }

    /// Writes a `break` that begins with the token `first` (C11 6.8.6.3).
    #[tactic(auto, unfolding(crate::specs::StatementSteps::broken))]
    pub fn broken(&mut self, first: u32) -> Result<(), NoMemory>
        ensures { OnOk result (self.new ≡ broken first self.old) }
    {
        let last = self.last()?;
        self.make(Event::Break { first, last })
    }

    /// Reads a `break` from behind its word on (C11 6.8.6.3).
    #[tactic(auto, unfolding(crate::specs::StatementSteps::break_behind))]
    pub fn break_behind(&mut self, first: u32) -> Result<(), NoMemory>
        ensures { OnOk result (self.new ≡ break_behind first self.old) }
    {
        self.mark(b";");
        self.broken(first)
    }

    /// Writes a `continue` that begins with the token `first` (C11 6.8.6.2).
    #[tactic(auto, unfolding(crate::specs::StatementSteps::continued))]
    pub fn continued(&mut self, first: u32) -> Result<(), NoMemory>
        ensures { OnOk result (self.new ≡ continued first self.old) }
    {
        let last = self.last()?;
        self.make(Event::Continue { first, last })
    }

    /// Reads a `continue` from behind its word on (C11 6.8.6.2).
    #[tactic(auto, unfolding(crate::specs::StatementSteps::continue_behind))]
    pub fn continue_behind(&mut self, first: u32) -> Result<(), NoMemory>
        ensures { OnOk result (self.new ≡ continue_behind first self.old) }
    {
        self.mark(b";");
        self.continued(first)
    }

    /// Writes a `return` that begins with the token `first` (C11 6.8.6.4).
    #[tactic(auto, unfolding(crate::specs::StatementSteps::returned))]
    pub fn returned(&mut self, first: u32) -> Result<(), NoMemory>
        ensures { OnOk result (self.new ≡ returned first self.old) }
    {
        let last = self.last()?;
        self.make(Event::Return { first, last })
    }

    /// Writes a block that begins with the token `first` (C11 6.8.2).
    #[tactic(auto, unfolding(crate::specs::StatementSteps::blocked))]
    pub fn blocked(&mut self, first: u32) -> Result<(), NoMemory>
        ensures { OnOk result (self.new ≡ blocked first self.old) }
    {
        let last = self.last()?;
        self.make(Event::Block { first, last })
    }
}
