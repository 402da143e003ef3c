// Worked cases of gates, element kinds, runs and expansions.
#![tactic(auto)]

#[cfg(test)]
mod expand_cases;
#[cfg(test)]
mod gate_cases;
#[cfg(test)]
mod kind_cases;
#[cfg(test)]
mod run_cases;
#[cfg(test)]
mod tools;
