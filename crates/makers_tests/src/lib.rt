// Tests of what makers choose: tie orders at their edges, and days of orders on both books.
#![tactic(auto)]

#[cfg(test)]
mod days;
#[cfg(test)]
mod turns;
