//! `libtmx`, for callers in C and in languages that call C. `include/tmx.h` says how.
#![tactic(auto)]

mod export;
mod jobs;
mod numbers;
mod structs;
mod texts;
