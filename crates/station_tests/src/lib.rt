// Tests of the station: opening, a shut station, each refusal in its order, and a group of three.
#![tactic(auto)]

#[cfg(test)]
mod calls;
#[cfg(test)]
mod group;
#[cfg(test)]
mod said;
