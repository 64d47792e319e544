//! How the program ends.

ghost use Rattle.std.specs.Prelude.{◌≡◌};
ghost use Rattle.sval_tool.specs.Ends.{end_of, end_of_document, status_of};

use crate::error::DocumentError;
use crate::inputs::ConvertError;

/// How the program `sval` ends.
#[derive(Clone, Copy, Debug, PartialEq, Eq)]
pub enum End {
    /// All was read and written.
    Done,
    /// An input is wrong.
    BadInput,
    /// The command line is wrong.
    Usage,
    /// Reading or writing failed, or memory was wanting.
    Fault,
}

impl End {
    /// The status of the process, from 0 to 3.
    pub fn status(self) -> u8
        ensures { result ≡ status_of self }
    {
        match self {
            End::Done => 0,
            End::BadInput => 1,
            End::Usage => 2,
            End::Fault => 3,
        }
    }
}

impl DocumentError {
    /// How the program ends for it.
    fn end(self) -> End
        ensures { result ≡ end_of_document self }
    {
        match self {
            DocumentError::NotUtf8 { .. }
            | DocumentError::BadJson { .. }
            | DocumentError::NotInteger => End::BadInput,
            DocumentError::WriteFault | DocumentError::NoMemory => End::Fault,
        }
    }
}

impl ConvertError {
    /// How the program ends for it: with [`End::BadInput`] where a document or a line is wrong, else with [`End::Fault`].
    pub fn end(self) -> End
        ensures { result ≡ end_of self }
    {
        match self {
            ConvertError::Unread(_) => End::Fault,
            ConvertError::Document(why) | ConvertError::Line { why, .. } => why.end(),
        }
    }
}
