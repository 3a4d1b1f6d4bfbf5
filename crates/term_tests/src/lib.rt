//! Tests of terms: worked examples with their expected answers, each public call, each refusal, and
//! thousands of calls beside plain trees.
#![tactic(auto)]

#[cfg(test)]
mod calls;
#[cfg(test)]
mod keyed;
#[cfg(test)]
mod mixed;
#[cfg(test)]
mod owners;
#[cfg(test)]
mod readme;
#[cfg(test)]
mod referenced;
#[cfg(test)]
mod refused;
#[cfg(test)]
mod releasing;
#[cfg(test)]
mod rows;
#[cfg(test)]
mod scene;
#[cfg(test)]
mod sides;
#[cfg(test)]
mod texts;
#[cfg(test)]
mod trees;
#[cfg(test)]
mod walks;
#[cfg(test)]
mod worked;
#[cfg(test)]
mod written;
