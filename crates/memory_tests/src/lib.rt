// Examples of the memories at both value kinds: both sides of every limit, and memories that stand on others.
// Uses the value kinds and the memories.
#![tactic(auto)]

#[cfg(test)]
mod beyond;
#[cfg(test)]
mod edges;
#[cfg(test)]
mod own;
#[cfg(test)]
mod stacks;
#[cfg(test)]
mod support;
