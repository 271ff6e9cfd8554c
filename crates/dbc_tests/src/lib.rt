//! Tests of the model and the reader together: what no contract states about them. They are separate, as a crate with tests is
//! proved once more with them. So are those of the devices, the values and the tokens below.
#![tactic(auto)]

#[cfg(test)]
mod constructors;
#[cfg(test)]
mod devices;
#[cfg(test)]
mod lists;
#[cfg(test)]
mod numbers;
#[cfg(test)]
mod starts;
#[cfg(test)]
mod tests;
#[cfg(test)]
mod tokens;
#[cfg(test)]
mod values;
