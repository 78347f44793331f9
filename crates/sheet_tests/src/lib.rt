// Tests of run sheets: both sides of every refusal, both kinds of values, every field damaged.
// Uses `sheet` and `value`; the sheets are written out byte by byte.
#![tactic(auto)]

#[cfg(test)]
mod reading;
#[cfg(test)]
mod support;
#[cfg(test)]
mod writing;
