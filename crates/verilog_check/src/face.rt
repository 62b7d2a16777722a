// The ports that a module is to have.

/// Those of a filter, or those of a module whose data is taken and given by ready and valid.
#[derive(Clone, Copy, PartialEq, Eq, Debug)]
pub(crate) enum Face {
    Filter,
    Stream,
}
