//! Tests of storages of slices: worked examples with their expected answers, each public call,
//! hostile use, churn.
#![tactic(auto)]

#[cfg(test)]
mod calls;
#[cfg(test)]
mod churn;
#[cfg(test)]
mod entries;
#[cfg(test)]
mod hostile;
#[cfg(test)]
mod kinds;
#[cfg(test)]
mod large;
#[cfg(test)]
mod limits;
#[cfg(test)]
mod near;
#[cfg(test)]
mod owed;
#[cfg(test)]
mod pairs;
#[cfg(test)]
mod reserved;
#[cfg(test)]
mod steps;
