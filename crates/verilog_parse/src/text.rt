//! The machine that reads the text of a module, one step for each token.
pub mod declaration;
pub mod draft;
pub mod item;
pub mod phase;
pub mod range;
pub mod step;
