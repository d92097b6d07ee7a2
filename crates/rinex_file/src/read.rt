//! Reading a file line by line: a satellite's line is judged in place; the fields of other lines
//! are read leniently, written again, and compared.
pub(crate) mod epochs;
pub(crate) mod fault;
pub(crate) mod fields;
pub(crate) mod file;
pub(crate) mod head_so_far;
pub(crate) mod lines;
pub(crate) mod other_lines;
pub(crate) mod parser_state;
pub(crate) mod row;
pub(crate) mod slots;
pub(crate) mod times;
pub(crate) mod types;
