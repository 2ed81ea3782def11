//! Tests that hold whatever growth is refused, one of a run: what is asked for is answered, or memory is out, all is as before, and the
//! same asked again is answered. `checks/growths` refuses each growth in turn.
#![tactic(auto)]

#[cfg(test)]
mod machines;
#[cfg(test)]
mod requests;
#[cfg(test)]
mod runs;
#[cfg(test)]
mod seats;
#[cfg(test)]
mod sources;
#[cfg(test)]
mod without_memory;
