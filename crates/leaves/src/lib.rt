// The float leaves: what one operation on one number gives, worked out so that every repair above
// rests on a result that is proved bit for bit. Each published function has an answer for every
// argument, a NaN and the infinities among them.
#![tactic(auto)]

pub mod narrow;
pub mod order;
pub mod root;
pub mod whole;
pub mod words;
