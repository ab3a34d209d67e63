// Platform and delta certificates: the check, the certificate in lent bytes, read and vouched.
#![tactic(auto)]

pub mod bottom;
pub mod check;
pub mod kind;
pub mod lent;
pub mod line;
pub mod places;
pub mod read;
