//! Values of a document.

ghost use Rattle.std.specs.Prelude.{◌≡◌, ◌≤◌, ◌-◌, map, option_map, length, take, drop, IfSome, true};
ghost use Rattle.sval_core.specs.Spells.{Spells};
ghost use Rattle.sval_json.specs.Digits.{is_json_number};
ghost use Rattle.sval_json_read.specs.Calls.{document_calls};
ghost use Rattle.sval_json_read.specs.Nodes.{tokens_in};
ghost use Rattle.sval_json_read.specs.Parts.{IsPart};
ghost use Rattle.sval_json_read.specs.SeenNodes.{seen_node};
ghost use Rattle.sval_json_read.specs.SeenValues.{value_in};
ghost use Rattle.sval_json_read.specs.Trees.{tree_of};
ghost use Rattle.sval_json_read.specs.ValueNodes.{AreOfValue};
ghost use Rattle.sval_json_read.specs.Lookups.{json_kind_of, is_null, json_truth_of, json_number_of, i64_of, u64_of, i128_of, u128_of, json_text_of, items_of, item_at, members_of, member_of, len_of};

use crate::json_part::JsonPart;
use crate::json_parts::{JsonItems, JsonMembers};
use crate::json_text::JsonText;
use crate::node::Node;
use std::alloc::AllocError;
use std::marker::Model;

/// Which of the six a value is.
#[derive(Clone, Copy, Debug, PartialEq, Eq)]
pub enum JsonKind {
    Null,
    Bool,
    Number,
    Text,
    Array,
    Object,
}

/// A value that a document holds, seen as the value of JSON. It takes no memory, and lends its texts from the bytes.
///
/// ```
/// let doc = JsonDoc::read(alloc, b"{\"user\": 42, \"tags\": [\"a\", \"b\\n\"]}".as_slice())?;
/// assert_eq!(rt; doc.root().get("user").and_then(|user| user.as_i64()), Some(42));
/// ```
#[derive(Drop)]
pub struct JsonRef<'d> {
    text: &'d str,
    nodes: &'d [Node],
}

impl<'d> Model for JsonRef<'d> {
    ghost use Rattle.std.specs.Prelude.{map};
    ghost use Rattle.sval_json.specs.Grammar.{JsonValue};
    ghost use Rattle.sval_json_read.specs.Nodes.{tokens_in};
    ghost use Rattle.sval_json_read.specs.SeenNodes.{seen_node};
    ghost use Rattle.sval_json_read.specs.SeenValues.{value_in};
    ghost use Rattle.sval_json_read.specs.ValueCodes.{value_code};
    ghost use Rattle.sval_json_read.specs.ValueNodes.{AreOfValue};

    ghost Value = { JsonValue };

    ghost coded = { value_code };

    ghost view = { λ here. value_in (tokens_in here.text.now (map seen_node here.nodes.now)) };

    ghost invariant = { λ here. AreOfValue here.text.now here.nodes.now };
}

impl<'d> JsonRef<'d> {
    /// The value that these nodes are of.
    pub(crate) fn new(text: &'d str, nodes: &'d [Node]) -> Self
        requires { AreOfValue text.now nodes.now }
        ensures { result ≡ value_in (tokens_in text.now (map seen_node nodes.now)) }
    {
        JsonRef { text, nodes }
    }

    /// A second view of this value.
    pub(crate) fn again(&self) -> JsonRef<'d>
        ensures { result ≡ self.now }
    {
        JsonRef::new(self.text, self.nodes)
    }

    /// The value as one that any stream takes, as if it were the whole document. It takes no memory.
    ///
    /// ```
    /// let doc = JsonDoc::read_str(alloc, "{\"tags\": [\"a\", {\"b\": 1.50}]}")?;
    /// if let Some(tag) = doc.root().pointer("/tags/1") {
    ///     assert_eq!(rt; stream_to_vec(alloc, &tag.part())?.as_slice(), b"{\"b\":1.50}".as_slice());
    /// }
    /// ```
    pub fn part(&self) -> JsonPart<'d>
        ensures part { IsPart result self.now }
        ensures value { value_in result ≡ self.now }
        ensures spells { Spells (document_calls result) (tree_of self.now) }
    {
        JsonPart::new(self.text, self.nodes)
    }

    /// Which of the six it is.
    pub fn kind(&self) -> JsonKind
        ensures { result ≡ json_kind_of self.now }
    {
        match self.nodes[0] {
            Node::Null(_) => JsonKind::Null,
            Node::Bool(..) => JsonKind::Bool,
            Node::Number(..) => JsonKind::Number,
            Node::Text(..) => JsonKind::Text,
            Node::BeginArray(..) | Node::EndArray(_) => JsonKind::Array,
            Node::BeginObject(..) | Node::EndObject(_) => JsonKind::Object,
        }
    }

    /// Whether it is `null`.
    pub fn is_null(&self) -> bool
        ensures { result ≡ is_null self.now }
    {
        match self.kind() {
            JsonKind::Null => true,
            _ => false,
        }
    }

    /// The truth value, if this is one.
    pub fn as_bool(&self) -> Option<bool>
        ensures { result ≡ json_truth_of self.now }
    {
        match self.nodes[0] {
            Node::Bool(_, value) => Some(value),
            _ => None,
        }
    }

    /// The text of the number, as it is in the document, if this is a number (RFC 8259, section 6).
    pub fn as_number(&self) -> Option<&'d str>
        ensures number { option_map (λ text. text.now) result ≡ json_number_of self.now }
        ensures proper { IfSome result (λ text. is_json_number text.now ≡ true) }
    {
        match self.nodes[0] {
            Node::Number(_, from, length) => {
                let from = from.get();
                Some(&self.text[from..from + length as usize])
            },
            _ => None,
        }
    }

    /// The number, if this is one without a fraction and without an exponent, and it fits an `i64`.
    pub fn as_i64(&self) -> Option<i64>
        ensures { result ≡ i64_of self.now }
    {
        match self.as_number() {
            Some(text) => match text.parse::<i64>() {
                Ok(number) => Some(number),
                Err(_) => None,
            },
            None => None,
        }
    }

    /// The number, if this is one without a minus, a fraction and an exponent, and it fits a `u64`.
    pub fn as_u64(&self) -> Option<u64>
        ensures { result ≡ u64_of self.now }
    {
        match self.as_number() {
            Some(text) => match text.parse::<u64>() {
                Ok(number) => Some(number),
                Err(_) => None,
            },
            None => None,
        }
    }

    /// The number, where it has no fraction and no exponent and fits.
    ///
    /// ```
    /// let doc = JsonDoc::read_str(alloc, "[18446744073709551616, 1.0]")?;
    /// assert_eq!(rt; doc.root().item(0).and_then(|item| item.as_i64()), None);
    /// assert_eq!(rt; doc.root().item(0).and_then(|item| item.as_i128()), Some(18446744073709551616));
    /// assert_eq!(rt; doc.root().item(1).and_then(|item| item.as_i128()), None);
    /// ```
    pub fn as_i128(&self) -> Option<i128>
        ensures { result ≡ i128_of self.now }
    {
        match self.as_number() {
            Some(text) => match text.parse::<i128>() {
                Ok(number) => Some(number),
                Err(_) => None,
            },
            None => None,
        }
    }

    /// The number, where it has no minus, no fraction and no exponent and fits.
    pub fn as_u128(&self) -> Option<u128>
        ensures { result ≡ u128_of self.now }
    {
        match self.as_number() {
            Some(text) => match text.parse::<u128>() {
                Ok(number) => Some(number),
                Err(_) => None,
            },
            None => None,
        }
    }

    /// The string, if this is one (RFC 8259, section 7).
    pub fn as_text(&self) -> Option<JsonText<'d>>
        ensures { result ≡ json_text_of self.now }
    {
        match self.nodes[0] {
            Node::Text(_, from, length) => {
                let from = from.get();
                Some(JsonText::new(&self.text[from..from + length as usize]))
            },
            _ => None,
        }
    }

    /// The elements, if this is an array (RFC 8259, section 5).
    pub fn items(&self) -> Option<JsonItems<'d>>
        ensures { result ≡ items_of self.now }
    {
        match self.nodes[0] {
            Node::BeginArray(..) => { Some(JsonItems::new(self.text, between_ends(self.nodes))) },
            _ => None,
        }
    }

    /// The item of the array at this index, from 0 on.
    ///
    /// ```
    /// let doc = JsonDoc::read_str(alloc, "[[1, 2], 3]")?;
    /// assert_eq!(rt; doc.root().item(1).and_then(|item| item.as_i64()), Some(3));
    /// assert_eq!(rt; doc.root().item(2).is_none(), true);
    /// ```
    pub fn item(&self, index: usize) -> Option<JsonRef<'d>>
        ensures { result ≡ item_at index self.now }
    {
        match self.items() {
            Some(items) => items.nth(index),
            None => None,
        }
    }

    /// The members, if this is an object (RFC 8259, section 4).
    pub fn members(&self) -> Option<JsonMembers<'d>>
        ensures { result ≡ members_of self.now }
    {
        match self.nodes[0] {
            Node::BeginObject(..) => {
                Some(JsonMembers::new(self.text, between_ends(self.nodes)))
            },
            _ => None,
        }
    }

    /// How many items the array has, or members the object.
    ///
    /// ```
    /// let doc = JsonDoc::read_str(alloc, "[[1, 2], 3]")?;
    /// assert_eq!(rt; doc.root().len(), Some(2));
    /// assert_eq!(rt; doc.root().item(1).and_then(|item| item.len()), None);
    /// ```
    pub fn len(&self) -> Option<usize>
        ensures { result ≡ len_of self.now }
    {
        match self.items() {
            Some(items) => Some(items.count()),
            None => match self.members() {
                Some(members) => Some(members.count()),
                None => None,
            },
        }
    }

    /// The value of the last member with this name, if this is an object and has one.
    ///
    /// Names are compared as they denote, so an escape in the document's text changes nothing. Of equal names the last
    /// counts, as in serde_json and in Python.
    ///
    /// ```
    /// let doc = JsonDoc::read_str(alloc, "{\"a\": 1, \"\\u0061\": 2}")?;
    /// assert_eq!(rt; doc.root().get("a").and_then(|value| value.as_i64()), Some(2));
    /// assert_eq!(rt; doc.root().get("c").is_none(), true);
    /// ```
    pub fn get(&self, name: &str) -> Option<JsonRef<'d>>
        ensures { result ≡ member_of name.now self.now }
    {
        match self.members() {
            Some(members) => members.last_named(name),
            None => None,
        }
    }
}

/// It takes no memory, and never fails. Like every `clone` it answers a `Result`:
///
/// ```
/// let again = doc.root().clone()?;
/// ```
impl<'d> Clone for JsonRef<'d> {
    ghost use Rattle.std.specs.Prelude.{◌≡◌, ⊤};

    ghost is_clone = { λ value copy. copy ≡ value };

    ghost is_infallible = { λ _. ⊤ };

    fn clone(&self) -> Result<JsonRef<'d>, AllocError> {
        Ok(self.again())
    }
}

/// The nodes between the first and the last.
pub(crate) fn between_ends(nodes: &[Node]) -> &[Node]
    requires { 2 ≤ length nodes.now }
    ensures { result.now ≡ take (length nodes.now - 1 - 1) (drop 1 nodes.now) }
{
    &nodes[1..nodes.len() - 1]
}
