ghost use Rattle.std.specs.Prelude.{◌≡◌};
ghost use Rattle.report.specs.Report.{status_of};

use crate::answer::Answer;

/// The exit status of an answer whose report was written whole: 0 to 5, or 7. It takes no memory.
///
/// A report that was not written whole has a status of its own, 6, which no answer has.
pub fn status(answer: &Answer) -> u8
    ensures { result ≡ status_of answer.now }
{
    match answer {
        Answer::Safe => 0,
        Answer::Warned { .. } => 1,
        Answer::Construct { .. } | Answer::Spent | Answer::Large => 2,
        Answer::NotRead { .. } | Answer::NotYet { .. } | Answer::TooLong { .. } => 3,
        Answer::Usage => 4,
        Answer::ReadFault => 5,
        Answer::OutOfMemory => 7,
    }
}
