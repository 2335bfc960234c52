//! The interpreter of the form table: what each move and each statement gives between two points, as jobs that are still to be done.

pub mod addresses;
pub mod along;
pub mod answers;
pub mod arms;
pub mod begins;
pub mod behind;
pub mod blocks;
pub mod branches;
pub mod conditions;
pub mod initialisers;
pub mod inner;
pub mod jumps;
pub mod loops;
pub mod objects;
pub mod returns;
pub mod statements;
pub mod step;
pub mod two_tests;
pub mod values;
pub mod ways;
