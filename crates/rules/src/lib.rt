// The rules by which a wave is decided.
#![tactic(auto)]

pub mod lead_station;
pub mod roll_call;
pub mod threshold;

pub use lead_station::LeadStation;
pub use roll_call::RollCall;
pub use threshold::Threshold;
