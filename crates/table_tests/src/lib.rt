//! Tests of the tables under a store: sweeps, also after churn; walks over counts; items that take
//! no room; values that share a hash; and refused memory. And of the indexes under the tables,
//! which stay small.
#![tactic(auto)]

#[cfg(test)]
mod apart;
#[cfg(test)]
mod counts;
#[cfg(test)]
mod indexes;
#[cfg(test)]
mod marks;
#[cfg(test)]
mod numbers;
#[cfg(test)]
mod slices;
#[cfg(test)]
mod steps;
#[cfg(test)]
mod values;
