//! Tests of the service above its parts: a house over words that a client overwrites, runs on threads, a worker's turn, and
//! what callers of a house, of the hall and of a client's turn may rest on. Each test is proved to meet the contracts of what
//! it calls.
//!
//! `StirredPass` is a side for these tests: its client does more puts between two fetches. Puts alone stand before its
//! first flush, which `can_stir` tests. After the flush only the puts that follow at once are stirred in.
#![tactic(auto)]

#[cfg(test)]
mod tests;
