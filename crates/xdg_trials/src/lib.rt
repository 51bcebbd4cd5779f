//! Trials of what no command shows: tests alone. What a command does is a row of `rows/`.
#![tactic(auto)]

#[cfg(test)]
mod blocks;
#[cfg(test)]
mod cards;
#[cfg(test)]
mod circles;
#[cfg(test)]
mod devices;
#[cfg(test)]
mod meeting;
#[cfg(test)]
mod nodes;
#[cfg(test)]
mod packing;
#[cfg(test)]
mod searching;
#[cfg(test)]
mod settling;
#[cfg(test)]
mod storing;
#[cfg(test)]
mod streaming;
#[cfg(test)]
mod trails;
#[cfg(test)]
mod trees;
