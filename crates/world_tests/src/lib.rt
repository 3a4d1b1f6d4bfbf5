//! Tests of runs over lists of calls: worked examples with their expected replies, each call, also
//! on each kind of slot, foreign handles, refusals, a chain of nodes, and many calls beside a
//! model.
#![tactic(auto)]

#[cfg(test)]
mod calls;
#[cfg(test)]
mod chain;
#[cfg(test)]
mod foreign;
#[cfg(test)]
mod gone;
#[cfg(test)]
mod mixed;
#[cfg(test)]
mod model;
#[cfg(test)]
mod refused;
#[cfg(test)]
mod replies;
#[cfg(test)]
mod rows;
#[cfg(test)]
mod uncounted;
#[cfg(test)]
mod worlds;
#[cfg(test)]
mod wrong_slots;
