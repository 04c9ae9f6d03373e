// Campaigns: how many of the places at which a fault can be does a test detect?
#![tactic(auto)]

pub mod campaign;
pub mod detecting;
pub mod examining;
pub mod faults;
pub mod percent;
pub mod planting;
pub mod records;
pub mod row;
