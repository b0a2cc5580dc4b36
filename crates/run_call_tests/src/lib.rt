//! Rows of whole calls, of reading and writing that fails, and of values in JSON: what each gives.
#![tactic(auto)]

#[cfg(test)]
mod devices;
#[cfg(test)]
mod tests;
#[cfg(test)]
mod values;
