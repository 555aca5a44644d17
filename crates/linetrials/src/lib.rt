//! Trials of the line file and its report, on whole files.
#![tactic(auto)]

#[cfg(test)]
mod files;
#[cfg(test)]
mod tests;
