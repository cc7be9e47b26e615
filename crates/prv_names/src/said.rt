//! One thing that a program's text says of names and blocks.
use prv_model::Name;
use prv_parse::Ident;

/// What a program's text says of names and blocks at one place.
#[derive(Debug, Drop)]
pub enum Said {
    /// A block begins.
    Opens,
    /// The innermost block ends.
    Closes,
    /// A declaration begins, with the name that it declares.
    Declares(Ident),
    /// The declaration of a name ends.
    Enters(Name),
    /// A name is read or assigned.
    Uses(Ident),
}
