//! Tests of the crates that read and write octets, over their public calls: a file for each crate.
//!
//! They show what neither a contract nor an example of the program shows: calls that the program doesn't make, sizes
//! that a short trace doesn't reach, and that both succeed if there is memory, on octets from outside. They stand
//! beside those crates since a crate with tests is proved twice.
#![tactic(auto)]

#[cfg(test)]
mod addresses;
#[cfg(test)]
mod aid_pool_tests;
#[cfg(test)]
mod beacon_tests;
#[cfg(test)]
mod digits_tests;
#[cfg(test)]
mod elements_tests;
#[cfg(test)]
mod encapsulation_tests;
#[cfg(test)]
mod mac_frame_tests;
#[cfg(test)]
mod powersave_tests;
#[cfg(test)]
mod tim_tests;
