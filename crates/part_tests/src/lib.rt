//! Tests of single parts, each with little below it: of words, streams of bytes, images, waits, callbacks and the choice of
//! a stream, of scripts and commands, and of what a client and the service share on any threads. Each test is proved to
//! meet the contracts of what it calls.
#![tactic(auto)]

#[cfg(test)]
mod tests;
