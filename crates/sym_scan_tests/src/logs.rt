//! Logs.

/// Five records of one group.
pub(crate) const FIVES: &str = "x\n5\n5\n5\n5\n5\n";

/// Five records of two users.
pub(crate) const VISITS: &str = "ts,user\n10,a\n20,a\n60,a\n5,b\n61,a\n";
