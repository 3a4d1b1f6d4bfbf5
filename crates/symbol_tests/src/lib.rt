//! Tests of symbols: worked examples with their expected answers, each public call, hostile use.
#![tactic(auto)]

#[cfg(test)]
mod calls;
#[cfg(test)]
mod constants;
#[cfg(test)]
mod counted;
#[cfg(test)]
mod entries;
#[cfg(test)]
mod hostile;
#[cfg(test)]
mod in_turn;
#[cfg(test)]
mod large;
#[cfg(test)]
mod numbers;
#[cfg(test)]
mod owed;
#[cfg(test)]
mod ported;
#[cfg(test)]
mod presets;
#[cfg(test)]
mod reserved;
#[cfg(test)]
mod shown;
#[cfg(test)]
mod steps;
