//! The tests of the crates of values, attributes and keys: `key_orders`, `varlena_attrs` and `key_attrs`.
#![tactic(auto)]

#[cfg(test)]
mod checks;
#[cfg(test)]
mod key_attrs_tests;
#[cfg(test)]
mod keys_tests;
#[cfg(test)]
mod values_tests;
#[cfg(test)]
mod varlena_attrs_tests;
