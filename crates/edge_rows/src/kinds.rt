//! What a row may ask.

/// What is asked.
#[derive(Clone, Copy)]
pub enum Kind {
    /// Nothing: the text stands in front of that of the next row.
    Repeat,
    /// What the program does.
    Run,
    /// How files in memory are read.
    Files,
    /// How a file that is given at once is read.
    Steady,
    /// What a sink in memory takes.
    Send,
    /// Whether a sink that takes all takes it.
    SteadySend,
    /// What words ask for.
    Words,
    /// What words behind `replay` ask for.
    ReplayWords,
    /// The report of a text that is safe.
    Safe,
    /// That of one with a warning.
    Warned,
    /// That of one with an error.
    Error,
    /// That of one with a warning, where the budget is spent.
    WarnedSpent,
    /// That of one where the budget is spent.
    Spent,
    /// That of one with a state that is too large.
    Large,
    /// That of one with no token at a place.
    Lexical,
    /// That of one in which brackets open too deep.
    Deep,
    /// That of one without `main`.
    NoMain,
    /// That of one that is no C.
    Syntax,
    /// That of one that breaks a rule.
    Rule,
    /// That of one with a construct that is given up.
    Construct,
    /// That of one that calls a function of its own.
    NotYet,
    /// That of one that is too long.
    TooLong,
    /// That of words that name no file.
    Usage,
    /// That of a file that cannot be read.
    ReadFault,
    /// That of want of memory.
    OutOfMemory,
    /// The report of a run that meets a fault.
    Fault,
    /// That of one that ends.
    Ended,
    /// That of one that waits for a choice.
    Waits,
    /// That of one that goes on.
    Running,
    /// That of one that comes where no program comes.
    Stuck,
    /// That of a file that holds no choices.
    BadChoices,
    /// That of a text without `main`.
    RunNoMain,
    /// That of a text that is too long.
    RunTooLong,
    /// That of choices that are too long.
    ChoicesTooLong,
    /// That of words that name no two files.
    RunUsage,
    /// That of a file that cannot be read.
    RunReadFault,
    /// That of want of memory.
    RunOutOfMemory,
}

/// The words of the kinds.
const KINDS: [(&str, Kind); 37] = [
    ("repeat", Kind::Repeat),
    ("run", Kind::Run),
    ("files", Kind::Files),
    ("steady", Kind::Steady),
    ("send", Kind::Send),
    ("steady_send", Kind::SteadySend),
    ("words", Kind::Words),
    ("replay_words", Kind::ReplayWords),
    ("safe", Kind::Safe),
    ("warned", Kind::Warned),
    ("error", Kind::Error),
    ("warned_spent", Kind::WarnedSpent),
    ("spent", Kind::Spent),
    ("large", Kind::Large),
    ("lexical", Kind::Lexical),
    ("deep", Kind::Deep),
    ("no_main", Kind::NoMain),
    ("syntax", Kind::Syntax),
    ("rule", Kind::Rule),
    ("construct", Kind::Construct),
    ("not_yet", Kind::NotYet),
    ("too_long", Kind::TooLong),
    ("usage", Kind::Usage),
    ("read_fault", Kind::ReadFault),
    ("out_of_memory", Kind::OutOfMemory),
    ("run_fault", Kind::Fault),
    ("run_ended", Kind::Ended),
    ("run_waits", Kind::Waits),
    ("run_running", Kind::Running),
    ("run_stuck", Kind::Stuck),
    ("run_choices", Kind::BadChoices),
    ("run_no_main", Kind::RunNoMain),
    ("run_too_long", Kind::RunTooLong),
    ("run_choices_too_long", Kind::ChoicesTooLong),
    ("run_usage", Kind::RunUsage),
    ("run_read_fault", Kind::RunReadFault),
    ("run_out_of_memory", Kind::RunOutOfMemory),
];

/// The kind that a word names, among these.
fn named(word: &str, rows: &[(&str, Kind)]) -> Option<Kind> {
    for (name, kind) in rows {
        if *name == word {
            return Some(*kind);
        }
    }
    None
}

/// The kind that a word names.
pub fn kind_of(word: &str) -> Option<Kind> {
    named(word, &KINDS)
}
