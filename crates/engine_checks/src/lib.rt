#![tactic(auto)]

// Tests of both engines on small examples: each is written once and run with each make.
#[cfg(test)]
mod both;
#[cfg(test)]
mod edges;
#[cfg(test)]
mod examples;
#[cfg(test)]
mod nets;
#[cfg(test)]
mod numbers;
