//! What each answer means: of each a law, which is the contract of a function that does nothing. Its premise is a clause of the call that gives the answer, word for word, and its conclusion
//! is what the answer means, with no more definitions than that needs. `tools/audit.py --answer NAME` lists these. A last law ties what two crates say of the items of a text.
#![tactic(auto)]

mod judging;
mod offering;
mod replaying;

pub use judging::{
    complete_warnings_mean, gave_up_means, large_means, no_main_means, no_token_means,
    not_yet_means, plain_means, read_fault_means, rule_means, safe_means, spent_means,
    syntax_means, too_deep_means, too_long_means, usage_means, warned_means, warnings_mean,
};
pub use offering::definitions_are_offered;
pub use replaying::{
    ended_means, fault_means, no_choices_means, no_step_means, still_running_means, waits_means,
};
