//! Tests of the turn lock: that its calls come back, one by one and in threads, that no wake is lost, and that a pass
//! that waits uses no processor. It depends on `tsdb_turn`.
#![tactic(auto)]

#[cfg(test)]
mod ledger;
#[cfg(test)]
mod order;
#[cfg(test)]
mod waiting;
