// Examples of the lines at both value kinds: READs, the lines that end an operation, and what is answered with none.
// Uses the value kinds, cells, the kinds of operations and the lines; the values wanted come from docs/lines.md.
#![tactic(auto)]

#[cfg(test)]
mod ending;
#[cfg(test)]
mod none;
#[cfg(test)]
mod reading;
#[cfg(test)]
mod support;
