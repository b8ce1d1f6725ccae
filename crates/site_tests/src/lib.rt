//! Examples at the edges of sites and contact, proved to be safe and then run.
#![tactic(auto)]

#[cfg(test)]
mod contacts;
#[cfg(test)]
mod halls;
#[cfg(test)]
mod pair_sites;
#[cfg(test)]
mod windows;
