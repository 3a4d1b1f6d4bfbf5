//! What a call of the program asks for.
use crate::numbers::STRIDE;
use anyhow::{Result, bail, ensure};

/// How the program is called.
pub(crate) const USAGE: &str =
    "usage: intern_bench NAME GROUP N, where GROUP is sym, val, churn, slice, near, chain, fan, \
     dag, churned, terms or terms_plain and N is a number of entries";

/// What is stored, and what happens to it.
#[derive(Clone, Copy)]
pub(crate) enum Group {
    /// Symbols of texts.
    Symbols,
    /// Counted values of 64 bits.
    Values,
    /// Such values, which come and go.
    Churn,
    /// Collected slices of four items.
    Slices,
    /// Such slices, whose items lie in their entries.
    Near,
    /// Collected nodes, each of which refers to the one before it.
    Chain,
    /// Such nodes, all of which refer to one.
    Fan,
    /// Such nodes in layers, each of which refers to two of the layer below.
    Dag,
    /// A chain, half of which was collected and is stored again.
    Churned,
    /// Terms.
    Terms,
    /// Such terms as bare slices.
    Bare,
}

impl Group {
    fn parse(name: &str) -> Result<Group> {
        match name {
            "sym" => Ok(Group::Symbols),
            "val" => Ok(Group::Values),
            "churn" => Ok(Group::Churn),
            "slice" => Ok(Group::Slices),
            "near" => Ok(Group::Near),
            "chain" => Ok(Group::Chain),
            "fan" => Ok(Group::Fan),
            "dag" => Ok(Group::Dag),
            "churned" => Ok(Group::Churned),
            "terms" => Ok(Group::Terms),
            "terms_plain" => Ok(Group::Bare),
            _ => bail!("no group {name:?}"),
        }
    }
}

/// One measurement to make.
#[derive(Drop)]
pub(crate) struct Job<'a> {
    /// What the report calls the library.
    pub(crate) name: &'a str,
    /// What it calls the group.
    pub(crate) group_name: &'a str,
    /// What is stored.
    pub(crate) group: Group,
    /// How many entries there are.
    pub(crate) entries: usize,
}

impl<'a> Job<'a> {
    /// Reads the arguments, the first of which is the program's name.
    pub(crate) fn parse(words: &'a [String]) -> Result<Job<'a>> {
        let [_, name, group_name, entries] = words else {
            bail!(
                "{} arguments in the place of 3",
                words.len().saturating_sub(1)
            );
        };
        Ok(Job {
            name: name.as_str(),
            group_name: group_name.as_str(),
            group: Group::parse(group_name.as_str())?,
            entries: parse_entries(entries.as_str())?,
        })
    }
}

fn parse_entries(word: &str) -> Result<usize> {
    let Ok(entries) = word.parse::<usize>() else {
        bail!("{word:?} is no number of entries");
    };
    ensure!(
        entries % STRIDE != 0,
        "{entries} entries, but their number may be no multiple of {STRIDE}"
    );
    Ok(entries)
}
