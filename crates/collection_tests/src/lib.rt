//! Tests of collections: worked examples with their expected answers, each public call, hostile
//! use, deep and wide storages.
#![tactic(auto)]

#[cfg(test)]
mod drawn;
#[cfg(test)]
mod equalities;
#[cfg(test)]
mod families;
#[cfg(test)]
mod hostile;
#[cfg(test)]
mod kinds;
#[cfg(test)]
mod large;
#[cfg(test)]
mod marks;
#[cfg(test)]
mod nodes;
#[cfg(test)]
mod outers;
#[cfg(test)]
mod pairs;
#[cfg(test)]
mod paths;
#[cfg(test)]
mod pool;
#[cfg(test)]
mod ported;
#[cfg(test)]
mod readme;
#[cfg(test)]
mod roots;
#[cfg(test)]
mod shelves;
#[cfg(test)]
mod steps;
#[cfg(test)]
mod texts;
#[cfg(test)]
mod visited;
