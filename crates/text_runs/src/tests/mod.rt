//! Decimals and names, loop files, words and verbs, the lines of watchers, and what is printed of sizes and refusals.

mod decimals;
mod files;
mod printed;
mod round_trips;
mod verbs;
mod watchers;
mod words;
