//! The heads of functions outside of functions, and definitions with bodies (C11 6.9.1).

mod broken;
mod declaring;
mod handing;
mod main_function;
mod marking;
mod pairs;
mod parts;
mod structs;
mod taking;
mod walking;

pub(crate) use walking::{definition, head};
