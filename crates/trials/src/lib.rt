//! Examples at the edges of the rules, each proved safe and then run.
#![tactic(auto)]

#[cfg(test)]
mod feeds;
#[cfg(test)]
mod ledgers;
#[cfg(test)]
mod listing;
#[cfg(test)]
mod meshes;
#[cfg(test)]
mod networks;
#[cfg(test)]
mod picking;
#[cfg(test)]
mod plans;
#[cfg(test)]
mod ticking;
