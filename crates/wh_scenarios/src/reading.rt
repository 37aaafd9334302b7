//! Scenarios of what stands below the store, by what they are about. The module of `wh_reading_tests` that is called so says what their
//! words mean.

pub mod batches;
pub mod days;
pub mod histories;
pub mod policies;
