//! Tests of what no contract states about values, lists, the draw and the trade: calls succeed, and the definitions
//! give the expected values at worked examples.
#![tactic(auto)]

#[cfg(test)]
mod asserting;
#[cfg(test)]
mod draw;
#[cfg(test)]
mod lists;
#[cfg(test)]
mod trade;
#[cfg(test)]
mod types;
