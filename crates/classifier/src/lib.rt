//! Ordered rules over cubes of headers, with the operations of policies on them.
#![tactic(auto)]

mod afters;
mod aligned;
mod classifier;
mod composition;
mod filters;
mod gathering;
mod hull;
mod join;
mod joins;
mod line;
mod list_table;
mod numbered;
mod ops;
mod prints;
mod product;
mod results;
mod run;
mod runs;
mod seen;
mod sum;
mod tight;
mod unions;

pub use aligned::are_aligned;
pub use classifier::Classifier;
pub use gathering::{Gathering, push_all};
pub use join::Join;
pub use joins::Joins;
pub use line::{Line, Lines};
pub use list_table::ListTable;
pub use numbered::Numbered;
pub use ops::{choose, negate, parallel, sequence, single, test, tighten};
pub use prints::print_of_pair;
pub use product::product_within;
pub use results::Results;
pub use run::Run;
pub use runs::{runs_by, runs_of};
pub use seen::{is_hidden, push_line, push_lines, push_reached};
pub use sum::parallel_all;
pub use unions::Unions;
