//! Names with their values.

/// The value of a name, or none where its definition has a fault.
pub(crate) type Value = Option<i64>;

/// Names with their values, in the order of the names' bytes.
pub(crate) type Symbols<'a> = source_text::Symbols<'a, Value>;
