use fp_base::Value;
use fp_type_sizes::{TypeExtent, WrittenType};

/// The types of the source, with the sizes and the defaults that were found of them.
#[derive(Clone, Copy)]
pub struct Types<'a> {
    pub written: &'a [WrittenType],
    pub extents: &'a [Option<TypeExtent>],
    pub defaults: &'a [Option<Value>],
}
