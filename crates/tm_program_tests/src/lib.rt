//! The tests of the arguments and of the program, with memory refused to them too, and of what refuses it.
#![tactic(auto)]

#[cfg(test)]
mod arguments;
#[cfg(test)]
mod files;
#[cfg(test)]
mod lines;
#[cfg(test)]
mod refused_arguments;
#[cfg(test)]
mod refused_lines;
#[cfg(test)]
mod runs;
#[cfg(test)]
mod turns;
