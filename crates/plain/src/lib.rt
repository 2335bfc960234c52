//! Plain runs: where marks say of each byte that it is 0 or in which store it was written, and an instruction takes what it takes whole, the post of
//! its edge names no loss and has one graph at most, which shows each state that follows.
//!
//! `specs/Marks.antt` has the marks, `specs/Conditions.antt` what is asked of each instruction, `specs/PlainRuns.antt` when a flow graph is plain, and `specs/Shown.antt` when a
//! graph shows a state with its marks. There is no code.
#![tactic(auto)]

pub mod laws;
