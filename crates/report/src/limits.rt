/// The limits of an analysis. They are kept with an answer; where the budget is spent it is printed.
#[derive(Clone, Copy, Debug, PartialEq, Eq)]
pub struct Limits {
    /// How many states are kept at most, from 1 to 200,000.
    pub budget: u32,
    /// The largest amount of an integer that is kept at loop heads, from 0 to 1,000.
    pub int_limit: u32,
}

impl Limits {
    /// The limits where the words give none: 10,000 states, and amounts up to 10.
    pub const DEFAULT: Limits = Limits {
        budget: 10_000,
        int_limit: 10,
    };
}
