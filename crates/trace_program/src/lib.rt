// The trace programs' loop over the chunks of a trace, whichever model they work.
#![tactic(auto)]

pub mod chunks;
#[cfg(test)]
mod tests;
pub mod traced;
