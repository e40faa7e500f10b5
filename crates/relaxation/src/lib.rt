// Lengths of forests between pairs of a form state and a target state, and how they are relaxed: by one forest after another, and by an
// element around a forest.
#![tactic(auto)]

pub mod around;
pub mod elements;
pub mod found;
pub mod pairs;
pub mod relax;
