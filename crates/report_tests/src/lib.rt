// Tests of reports: a sheet of links told line by line, and bytes that are refused.
// Uses `report`; the sheet is written out byte by byte.
#![tactic(auto)]

#[cfg(test)]
mod reports;
