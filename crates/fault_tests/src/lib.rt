//! Tests of residents' requests and of the exact bytes of the responses, and tests in which calls fail: a file stops
//! working at each of its calls in turn. Other tests make each request in each phase, where no call fails if no
//! allocation does. `bench/refused.sh` adds tests in which each allocation fails in turn.
#![tactic(auto)]

#[cfg(test)]
mod asking;
#[cfg(test)]
mod asserting;
#[cfg(test)]
mod desk;
#[cfg(test)]
mod phases;
#[cfg(test)]
mod requests;
#[cfg(test)]
mod same;
#[cfg(test)]
mod server;
#[cfg(test)]
mod stops;
#[cfg(test)]
mod tables;
#[cfg(test)]
mod texts;
