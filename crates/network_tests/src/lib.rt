// Networks built and compared with those written out by hand from the rules.
#![tactic(auto)]

#[cfg(test)]
mod tests;
