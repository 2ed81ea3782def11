//! Tests of what is below machines: values, orders, tokens, clocks, normal forms, the code of small programs, the worlds of the reference,
//! replies, and what C reads and writes. In one crate above them all, since a crate with tests is proved twice, and its start is as dear as ten tests. Which texts
//! are read, and what operators give in programs, is tested by `rows/`, of which nothing is proved anew.
#![tactic(auto)]

#[cfg(test)]
mod clocks;
#[cfg(test)]
mod codes;
#[cfg(test)]
mod leaves;
#[cfg(test)]
mod normal_forms;
#[cfg(test)]
mod operators;
#[cfg(test)]
mod orders;
#[cfg(test)]
mod refusals;
#[cfg(test)]
mod replies;
#[cfg(test)]
mod tokens;
#[cfg(test)]
mod values;
#[cfg(test)]
mod windows;
#[cfg(test)]
mod words;
#[cfg(test)]
mod worlds;
