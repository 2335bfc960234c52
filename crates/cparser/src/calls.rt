ghost use Rattle.std.specs.Prelude.{◌≡◌, ◌+◌, ◌-◌, ◌≤◌, ◌<◌, ◌^◌, drop, length, min, take};
ghost use Rattle.std.specs.List.{prefix_len};
ghost use Rattle.cparser.specs.OperandSteps.{call_place, first_word, is_no_word};

use crate::reader::{Reader, behind};
use cgrammar::{PostfixStart, Terminal};

impl<'a> Reader<'a> {
    /// Where a call stands whose callee begins at the token `first`: at the callee's first word, or at its first token
    /// where it has none. Of the tokens from `first` on `passed` are known to be no words.
    #[tactic(auto, using(crate::proofs::Passed::passed_front))]
    pub fn call_place(&self, first: usize, passed: usize) -> usize
        requires { passed ≤ prefix_len is_no_word (drop first self.now.row) }
        ensures { result ≡ call_place first self.now }
    {
        first_word(first, between(self.row, first, self.at), passed)
    }

    /// How many of the tokens from `first` on are known to be no words, where `passed` of them are. Where a call stands,
    /// its whole callee is looked through up to the first word.
    #[tactic(auto, using(crate::proofs::Passed::passed_front, crate::proofs::Passed::passed_in_front))]
    pub fn passed_on(&self, first: usize, passed: usize) -> usize
        requires { passed ≤ prefix_len is_no_word (drop first self.now.row) }
        ensures { result ≤ prefix_len is_no_word (drop first self.now.row) }
    {
        if matches!(self.postfix(), PostfixStart::Call) {
            return before_word_behind(between(self.row, first, self.at), passed);
        }
        passed
    }

    /// How many of the tokens from `at` on are known to be no words, where `passed` of those behind it are.
    pub fn passed_before(&self, at: usize, passed: usize) -> usize
        requires { passed ≤ prefix_len is_no_word (drop (at + 1) self.now.row) }
        ensures { result ≤ prefix_len is_no_word (drop at self.now.row) }
    {
        with_one_before(self.row, at, passed)
    }
}

/// The tokens from one number up to another.
#[tactic(auto, using(crate::proofs::Fronts::none_between, crate::proofs::Fronts::none_behind, crate::proofs::Fronts::all_behind))]
fn between<'a>(row: &'a [Terminal<'a>], first: usize, end: usize) -> &'a [Terminal<'a>]
    ensures is { result.now ≡ take (end - first) (drop first row.now) }
    ensures inside { length result.now ≤ length row.now - first }
{
    if end <= first || row.len() <= first {
        return &[];
    }
    if row.len() <= end {
        return &row[first..];
    }
    &row[first..end]
}

/// The number of the first word among tokens of which the first has the number `first`, or that number. `passed` of them
/// are known to be no words, or all.
fn first_word<'a>(first: usize, front: &'a [Terminal<'a>], passed: usize) -> usize
    requires fits { first + length front.now < 2 ^ 64 }
    requires passed { min passed (length front.now) ≤ prefix_len is_no_word front.now }
    ensures { result ≡ first_word first front.now }
{
    let count = before_word_behind(front, passed);
    if count == front.len() {
        return first;
    }
    first + count
}

/// How many tokens stand before the first word, where `passed` of them are known to be no words, or all.
fn before_word_behind<'a>(front: &'a [Terminal<'a>], passed: usize) -> usize
    requires { min passed (length front.now) ≤ prefix_len is_no_word front.now }
    ensures count { result ≡ prefix_len is_no_word front.now }
    ensures inside { result ≤ length front.now }
{
    if front.len() <= passed {
        return front.len();
    }
    passed + before_word(behind(front, passed))
}

/// How many tokens stand before the first word.
fn before_word(row: &[Terminal<'_>]) -> usize
    ensures count { result ≡ prefix_len is_no_word row.now }
    ensures inside { result ≤ length row.now }
{
    let mut count: usize = 0;
    for token in row {
        if token.is_any_word() {
            return count;
        }
        count += 1;
    }
    count
}

/// How many of the tokens from `at` on are known to be no words, where `passed` of those behind it are.
fn with_one_before(row: &[Terminal<'_>], at: usize, passed: usize) -> usize
    requires { passed ≤ prefix_len is_no_word (drop (at + 1) row.now) }
    ensures { result ≤ prefix_len is_no_word (drop at row.now) }
{
    if row.len() <= at {
        return 0;
    }
    if row[at].is_any_word() {
        return 0;
    }
    passed + 1
}
