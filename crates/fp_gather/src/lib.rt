//! From the names of files to the source that they hold with what they include, or the first rule that they break, or the file that is
//! missing or can't be read.
#![tactic(auto)]

mod gathering;

pub use gathering::{
    Halt, gather, in_files_read, name_of, names_are_names, one_reading, places_in_files,
};
