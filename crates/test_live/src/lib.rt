//! Tests of live runs: workers that meet, how often each turn calls the gate, and lists that are done.
#![tactic(auto)]

#[cfg(test)]
mod chain;
#[cfg(test)]
mod gates;
#[cfg(test)]
mod rest;
