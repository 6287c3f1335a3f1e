//! Tests that neither contracts nor runs of the program nor the trials cover: of planners on
//! threads, of scripts with failing devices, and of one instance in two layouts. They are a crate
//! of their own so that no other crate is proved a second time for its tests.
#![tactic(auto)]

#[cfg(test)]
mod crew_tests;
#[cfg(test)]
mod desk_tests;
#[cfg(test)]
mod desks;
#[cfg(test)]
mod device_tests;
#[cfg(test)]
mod instance_tests;
#[cfg(test)]
mod learnt_tests;
#[cfg(test)]
mod small;
#[cfg(test)]
mod stopped;
