//! How large a document may be that is read from a stranger.

/// How large a document may be. A reader of JSON stops at the first byte that passes a limit, before it keeps more. One of
/// CBOR stops behind the head that passes it, and has kept the node of that head.
///
/// `JsonDoc::read_with` of `sval_json_read` and `CborDoc::read_with` of `sval_cbor_read` take them. Each says what it
/// counts as a level, and what as a node.
#[derive(Clone, Copy, Debug, PartialEq, Eq)]
pub struct Limits {
    /// How many arrays and objects may be open at once.
    pub depth: usize,
    /// How many nodes the document may have.
    pub nodes: usize,
}
