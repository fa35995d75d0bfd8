//! Tests at worked examples of what no contract states about the office and its tables: calls succeed if there is
//! enough memory.
#![tactic(auto)]

#[cfg(test)]
mod asserting;
#[cfg(test)]
mod building;
#[cfg(test)]
mod changes;
#[cfg(test)]
mod create;
#[cfg(test)]
mod file;
#[cfg(test)]
mod layouts;
#[cfg(test)]
mod load;
#[cfg(test)]
mod office;
#[cfg(test)]
mod rows;
#[cfg(test)]
mod soundness;
#[cfg(test)]
mod store;
