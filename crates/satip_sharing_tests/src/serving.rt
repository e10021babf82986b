//! The words of a serve run.

mod rows;
