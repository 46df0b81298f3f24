// Tests of the settings at their limits, of the pools against a list, and of the layouts.
#![tactic(auto)]

#[cfg(test)]
mod limits;
#[cfg(test)]
mod lists;
#[cfg(test)]
mod orders;
#[cfg(test)]
mod positions;
