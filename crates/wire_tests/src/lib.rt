// Tests of the wire crate on blocks that an independent script worked out (reference/vectors.py rust).
#![tactic(auto)]

#[cfg(test)]
mod blocks;
#[cfg(test)]
mod tests;
