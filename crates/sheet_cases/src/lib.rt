// The worked cases of sheets and families, and the sheet's limits, run as tests.
#![tactic(auto)]

#[cfg(test)]
mod calls;
#[cfg(test)]
mod families;
#[cfg(test)]
mod limits;
#[cfg(test)]
mod tools;
