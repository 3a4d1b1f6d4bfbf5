//! Tests of storages of values: worked examples with their expected answers, each public call,
//! hostile use, churn.
#![tactic(auto)]

#[cfg(test)]
mod alone;
#[cfg(test)]
mod calls;
#[cfg(test)]
mod churn;
#[cfg(test)]
mod collected;
#[cfg(test)]
mod counted;
#[cfg(test)]
mod entries;
#[cfg(test)]
mod hostile;
#[cfg(test)]
mod in_turn;
#[cfg(test)]
mod kinds;
#[cfg(test)]
mod large;
#[cfg(test)]
mod numbers;
#[cfg(test)]
mod optional;
#[cfg(test)]
mod owed;
#[cfg(test)]
mod ported;
#[cfg(test)]
mod readme;
#[cfg(test)]
mod reserved;
#[cfg(test)]
mod shown;
#[cfg(test)]
mod steps;
#[cfg(test)]
mod strings;
#[cfg(test)]
mod texts;
#[cfg(test)]
mod tour;
#[cfg(test)]
mod words;
