//! Worked examples that cross the libraries, as tests. There is nothing here to call.
#![tactic(auto)]

#[cfg(test)]
mod commit_locks;
#[cfg(test)]
mod commits;
#[cfg(test)]
mod effects;
#[cfg(test)]
mod granules;
#[cfg(test)]
mod kernel_events;
#[cfg(test)]
mod needs;
#[cfg(test)]
mod plain_needs;
#[cfg(test)]
mod trees;
