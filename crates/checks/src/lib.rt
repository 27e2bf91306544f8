#![tactic(auto)]

// Tests of nets, sets of blocks, reading and sheets on small examples.
mod chain;
#[cfg(test)]
mod draft;
#[cfg(test)]
mod nets;
#[cfg(test)]
mod reading;
#[cfg(test)]
mod rules;
#[cfg(test)]
mod sheets;
#[cfg(test)]
mod sizes;
#[cfg(test)]
mod words;
