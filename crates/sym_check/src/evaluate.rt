//! What the expressions of a plan stand for. No call but those with an allocator takes memory.
pub mod arithmetic;
pub mod calls;
pub mod fixed_value;
pub mod known;
pub mod numbers;
pub mod pairs;
pub mod truth;
