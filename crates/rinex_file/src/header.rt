//! The header: its contents, and its lines in order. RINEX 3.05, table A2.
pub(crate) mod fault;
pub(crate) mod fields;
pub(crate) mod head;
pub(crate) mod lines;
pub(crate) mod lists;
pub(crate) mod rows;
pub(crate) mod texts;
