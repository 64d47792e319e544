//! Documents: bytes that were read.

ghost use Rattle.std.specs.Prelude.{◌≡◌, ℕ, List, [], drop, IfOk, IfErr};
ghost use Rattle.sval_core.specs.Trees.{Tree};
ghost use Rattle.sval_core.specs.Values.{makes};
ghost use Rattle.sval_io.specs.Sinks.{WritesAll};
ghost use Rattle.sval_script.specs.Canon.{canon};
ghost use Rattle.sval_cbor_read.specs.Items.{IsItem};
ghost use Rattle.sval_cbor_read.specs.Document.{cbor_calls};
ghost use Rattle.sval_cbor_read.specs.ReadErrors.{IsReadItem, IsReadFront, IsCborReadError, IsCborFrontError};
ghost use Rattle.sval_cbor_read.specs.Reading.{Ended, Reached};
ghost use Rattle.sval_cbor_read.specs.CborValues.{cbor_value_in};
ghost use Rattle.sval_cbor_read.specs.SeenNodes.{streamed_items};
ghost use Rattle.sval_cbor_read.specs.SeenFound.{AreOfItem};
ghost use Rattle.sval_cbor_read.specs.SeenUnread.{IsUnread};
ghost use Rattle.sval_cbor_read.specs.WrittenItems.{WritesSteps};

mod limited;
mod unread;

use crate::cbor_ref::CborRef;
use crate::node::Node;
use crate::node_calls::stream_nodes;
use crate::node_json::write_nodes;
use crate::node_script::print_nodes;
use crate::reader::Reader;
pub use limited::CborLimitedError;
use std::alloc::Global;
use std::error::Error;
use std::fmt;
use std::marker::Model;
use sval_core::{Lent, NoMemory, Result as StreamResult, Stream, Value};
use sval_io::{Sink, SinkError};
use sval_json::Error as JsonError;
use sval_ref::ValueRef;
use unread::{Unread, front_error, whole_error};

/// Why bytes can't be read.
///
/// `at` is where the reader stops, and the variant tells of the bytes as a whole. From [`CborDoc::read_front`] it tells
/// of the first item alone. So of `f7 01`, which isn't one item,
/// the error is `Malformed { at: 0 }`: the reader stops at the simple value `f7`, before the byte that is left over.
#[derive(Clone, Copy, Debug, PartialEq, Eq)]
pub enum CborReadError {
    /// They are not one well-formed item of CBOR (RFC 8949, section 3 and appendix C), whole and with nothing behind
    /// it. `at` is the offset of the first head, chunk or break that is cut, not allowed in its place or none of this
    /// profile. Where there is none, it is that of the first byte behind the item, or the length of the bytes where
    /// they end before a head, a chunk or a break.
    Malformed { at: u64 },
    /// They are one well-formed item, but none of this profile. `at` is the offset of the head of a float, of a simple
    /// value other than `false`, `true` and `null`, or of a text or a chunk that is not UTF-8. Where the tag 2 or 3 is
    /// not followed by a byte string of a number of 128 bits, it is the offset of what follows the tag, or that of a
    /// chunk or a break in it.
    Unsupported { at: u64 },
    /// There was no memory for what is kept of them or for telling the other two apart, or something begins 2^48 bytes
    /// behind the first one.
    NoMemory,
}

impl fmt::Display for CborReadError {
    ghost use Rattle.std.specs.Prelude.{Some};
    ghost use Rattle.sval_cbor_read.specs.ErrorTexts.{cbor_read_error_text};

    ghost output = { λ error. Some (cbor_read_error_text error) };

    fn fmt<W: fmt::Write>(&self, f: &mut fmt::Formatter<W>) -> fmt::Result {
        match *self {
            CborReadError::Malformed { at } => {
                write!(
                    f,
                    "invalid CBOR at byte {at}: cut short, not well-formed or left over"
                )
            },
            CborReadError::Unsupported { at } => {
                write!(
                    f,
                    "unsupported CBOR at byte {at}: a float, a simple value, invalid UTF-8, \
                    or a bignum that is invalid or too large"
                )
            },
            CborReadError::NoMemory => f.write_str("cannot allocate for an item of CBOR"),
        }
    }
}

impl Error for CborReadError {}

impl From<NoMemory> for CborReadError {
    ghost use Rattle.std.specs.Prelude.{◌≡◌};
    ghost use Rattle.sval_cbor_read.specs.declared.document.CborReadError.TheVariants as reading;

    ghost from_gives = { λ _ error. error ≡ reading.NoMemory };

    fn from(_cause: NoMemory) -> CborReadError {
        CborReadError::NoMemory
    }
}

/// An item that was read, seen as its calls.
///
/// It is a value, which makes these calls, lends its texts and byte strings from the bytes and never refuses. It takes
/// no memory for that.
#[derive(Drop)]
pub struct CborDoc<'a> {
    bytes: &'a [u8],
    nodes: Vec<Node>,
}

impl<'a> Model for CborDoc<'a> {
    ghost use Rattle.std.specs.Prelude.{List};
    ghost use Rattle.sval_label.specs.Calls.{Call};
    ghost use Rattle.sval_cbor_read.specs.SeenNodes.{streamed_items};
    ghost use Rattle.sval_cbor_read.specs.SeenFound.{AreOfItem};

    ghost Value = { List Call };

    ghost view = { λ doc. streamed_items doc.bytes.now doc.nodes.items };

    ghost invariant = { λ doc. AreOfItem doc.bytes.now doc.nodes.items };
}

impl<'a> CborDoc<'a> {
    /// Reads the bytes of one item whole. The document makes the calls that spell its tree.
    ///
    /// A definite string, array or map tells its size, and one that a break ends tells none. Each chunk of a string is
    /// one fragment, which is lent. Tags are passed over, but 2 and 3, whose byte strings are whole numbers of 128 bits
    /// (RFC 8949, section 3.4.3).
    ///
    /// ```
    /// let doc = CborDoc::read(alloc, b"\xbf\x61\x30\xf4\x61\x31\xf5\xff".as_slice())?;
    /// assert_eq!(rt; stream_to_vec(alloc, &doc)?.as_slice(), b"{\"0\":false,\"1\":true}".as_slice());
    /// assert_eq!(rt; CborDoc::read(alloc, b"\x62\xc3".as_slice()).err(), Some(CborReadError::Malformed { at: 0 }));
    /// let float = CborDoc::read(alloc, b"\xf9\x3c\x00".as_slice());
    /// assert_eq!(rt; float.err(), Some(CborReadError::Unsupported { at: 0 }));
    /// ```
    ///
    /// # Errors
    ///
    /// [`CborReadError::Malformed`] and [`CborReadError::Unsupported`] come only where the bytes are an item of no
    /// tree. The first comes only where they are not one well-formed item, and the second only where they are. To tell
    /// them apart the bytes are gone through once more, which takes memory for each array or map that is open at once.
    /// [`CborReadError::NoMemory`] may come in their place and in that of a document, but only where some first bytes
    /// make a call, or where the bytes begin with an array or a map, or with tags and then one.
    pub fn read(alloc: Global, bytes: &'a [u8]) -> Result<Self, CborReadError>
        ensures ok { IfOk result (λ doc. IsReadItem bytes.now doc) }
        ensures err { IfErr result (IsCborReadError bytes.now) }
    {
        match read_item(alloc, bytes) {
            Ok((nodes, used)) => if used < bytes.len() {
                Err(CborReadError::Malformed { at: used as u64 })
            } else {
                Ok(CborDoc { bytes, nodes })
            },
            Err(why) => Err(whole_error(alloc, bytes, why)),
        }
    }

    /// Reads the first item of the bytes, and tells how many bytes it takes. What follows it isn't looked at, so a
    /// sequence of items (RFC 8742) is read one by one.
    ///
    /// ```
    /// let bytes = b"\x01\x61\x61".as_slice();
    /// let (first, used) = CborDoc::read_front(alloc, bytes)?;
    /// assert_eq!(rt; used, 1);
    /// let (second, _) = CborDoc::read_front(alloc, &bytes[used..])?;
    /// assert_eq!(rt; stream_to_vec(alloc, &second)?.as_slice(), b"\"a\"".as_slice());
    /// assert_eq!(rt; CborDoc::read_front(alloc, b"".as_slice()).err(), Some(CborReadError::Malformed { at: 0 }));
    /// ```
    ///
    /// # Errors
    ///
    /// [`CborReadError::Malformed`] comes only where no well-formed item begins the bytes, as where there are none.
    /// [`CborReadError::Unsupported`] comes only where one does, but no item of this profile.
    /// [`CborReadError::NoMemory`] comes as that of [`CborDoc::read`].
    pub fn read_front(alloc: Global, bytes: &'a [u8]) -> Result<(Self, usize), CborReadError>
        ensures ok { IfOk result (λ front. IsReadFront bytes.now front.0 front.1) }
        ensures err { IfErr result (IsCborFrontError bytes.now) }
    {
        match read_item(alloc, bytes) {
            Ok((nodes, used)) => Ok((CborDoc { bytes, nodes }, used)),
            Err(why) => Err(front_error(alloc, bytes, why)),
        }
    }

    /// The item of the document.
    ///
    /// ```
    /// let doc = CborDoc::read(alloc, b"\xa1\x61a\x82\x01\x20".as_slice())?;
    /// let numbers = doc.root().get("a");
    /// assert_eq!(rt; numbers.and_then(|numbers| numbers.item(1)).and_then(|number| number.as_i64()), Some(-1));
    /// ```
    pub fn root(&self) -> CborRef<'_>
        ensures { result ≡ cbor_value_in self.now }
    {
        CborRef::new(self.bytes, self.nodes.as_slice())
    }

    /// Writes the JSON of the item, without white space (RFC 8259). It is what
    /// [`stream_to_io_write`](sval_json::stream_to_io_write) writes of the document, in less time. Byte strings are arrays
    /// of numbers there, and keys that are numbers, truth values or null are texts. It takes no memory but what the sink
    /// takes, and doesn't flush the sink.
    ///
    /// ```
    /// let doc = CborDoc::read(alloc, b"\xa1\x61a\x82\x01\x20".as_slice())?;
    /// let mut out = VecSink::new(alloc);
    /// doc.write_json(&mut out)?;
    /// assert_eq!(rt; out.as_slice(), b"{\"a\":[1,-1]}".as_slice());
    /// ```
    ///
    /// # Errors
    ///
    /// [`ErrorKind::InvalidKey`](sval_json::ErrorKind::InvalidKey) where a key is a byte string, an array or a map: the
    /// sink took exactly what is written before it. [`ErrorKind::IO`](sval_json::ErrorKind::IO) and
    /// [`ErrorKind::NoMemory`](sval_json::ErrorKind::NoMemory) only where the sink declined: it took a first part of the
    /// JSON then, and not all. No other error comes.
    pub fn write_json<K: Sink>(&self, out: &mut K) -> Result<(), JsonError>
        ensures { WritesSteps self.now result (K.told out.old) (K.told out.new) }
    {
        write_nodes(self.bytes, self.nodes.as_slice(), out)
    }

    /// Writes the canonical script of the calls that the document makes: `-` for the size of each array and map, and
    /// each text and byte string in one fragment. The lines are written node by node, from the bytes, so nothing is
    /// captured. It takes no memory but what the sink takes, and doesn't flush the sink.
    ///
    /// ```
    /// let doc = CborDoc::read(alloc, b"\x81\x7f\x61\x61\x61\x0a\xff".as_slice())?;
    /// let mut out = VecSink::new(alloc);
    /// doc.write_script(&mut out)?;
    /// let script = "seq_begin -\nseq_value_begin\ntext_begin 2\ntext_fragment =610a\ntext_end\nseq_value_end\nseq_end\n";
    /// assert_eq!(rt; out.as_slice(), script.as_bytes());
    /// ```
    ///
    /// # Errors
    ///
    /// Those of the sink. It took a first part of the script then, and not all.
    pub fn write_script<K: Sink>(&self, out: &mut K) -> Result<(), SinkError>
        ensures { (bytes rest : List ℕ) (tree : Tree) (item : IsItem bytes tree rest)
            → self.now ≡ cbor_calls item []
            → WritesAll result (K.told out.old) (canon tree) (K.told out.new) }
    {
        print_nodes(self.bytes, self.nodes.as_slice(), out)
    }
}

/// Reads the first item of the bytes, step by step: the nodes of it, and how many bytes it takes.
fn read_item(alloc: Global, bytes: &[u8]) -> Result<(Vec<Node>, usize), Unread>
    ensures front { IfOk result (λ read. IsReadFront bytes.now (streamed_items bytes.now read.0.items) read.1) }
    ensures ended { IfOk result
        (λ read. Reached bytes.now (Ended []) (drop read.1 bytes.now) (streamed_items bytes.now read.0.items)) }
    ensures kept { IfOk result (λ read. AreOfItem bytes.now read.0.items) }
    ensures err { IfErr result (IsUnread bytes.now) }
{
    let mut reader = Reader::new(alloc);
    while !reader.has_ended() {
        match reader.step(bytes) {
            Ok(true) => {},
            Ok(false) => return Err(Unread::At(reader.at)),
            Err(cause) => return Err(Unread::from(cause)),
        }
    }
    let used = reader.at;
    Ok((reader.nodes, used))
}

impl<'v, 'a> Value<'v, Lent<'v>> for CborDoc<'a> {
    ghost emission = { makes };

    fn stream<S: Stream<Lent<'v>>>(&'v self, stream: &mut S) -> StreamResult {
        stream_nodes(self.bytes, self.nodes.as_slice(), stream)
    }
}

impl<'a> ValueRef<Lent<'a>> for CborDoc<'a> {
    ghost ref_emission = { makes };

    fn stream_ref<S: Stream<Lent<'a>>>(&self, stream: &mut S) -> StreamResult {
        stream_nodes(self.bytes, self.nodes.as_slice(), stream)
    }
}
