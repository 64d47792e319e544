//! The tokens of a document, one after another.

ghost use Rattle.std.specs.Prelude.{◌≡◌, map, true};
ghost use Rattle.sval_core.specs.Law.{Emits};
ghost use Rattle.sval_core.specs.Values.{makes};
ghost use Rattle.sval_json.specs.Digits.{is_json_number};
ghost use Rattle.sval_json_read.specs.Calls.{placed_token_calls};
ghost use Rattle.sval_json_read.specs.Nodes.{placed_in, tokens_in};
ghost use Rattle.sval_json_read.specs.SeenNodes.{seen_node, IsKeptOf, AreKeptOf};
ghost use Rattle.sval_json_read.specs.TokenMarks.{IsMarkOf};
ghost use Rattle.sval_json_read.specs.Tokens.{Number};
ghost use Rattle.sval_json_read.specs.TokenKinds.{member_name_in, kind_of_token, TakesFirstToken};

use crate::json_text::JsonText;
use crate::node::{Node, Place};
use crate::number_calls::i64_in;
use std::marker::Model;
use sval_core::{Lent, Result as StreamResult, Stream};

/// What a token is. It lends its texts from the bytes.
#[derive(Drop)]
pub enum JsonMark<'d> {
    /// `null`.
    Null,
    /// `true` or `false`.
    Bool(bool),
    /// A number without a fraction and without an exponent that fits an `i64`.
    Int(i64),
    /// Another number, as it is in the document (RFC 8259, section 6).
    Number(&'d str),
    /// A string, or the name of a member (RFC 8259, section 7).
    Text(JsonText<'d>),
    /// It begins an array.
    BeginArray,
    /// It ends one.
    EndArray,
    /// It begins an object.
    BeginObject,
    /// It ends one.
    EndObject,
}

/// Whether a token begins or ends an array or object.
#[derive(Clone, Copy, Debug, PartialEq, Eq)]
pub enum TokenKind {
    /// It begins one.
    Begin,
    /// It ends one.
    End,
    /// It does neither: it is a word, a number or a string.
    Single,
}

/// A token of a document, in its place. It lends its texts from the bytes.
#[derive(Drop)]
pub struct JsonToken<'d> {
    text: &'d str,
    node: Node,
}

impl<'d> Model for JsonToken<'d> {
    ghost use Rattle.sval_json_read.specs.Nodes.{placed_in};
    ghost use Rattle.sval_json_read.specs.SeenNodes.{seen_node, IsKeptOf};
    ghost use Rattle.sval_json_read.specs.Tokens.{Placed};

    ghost Value = { Placed };

    ghost view = { λ token. placed_in token.text.now (seen_node token.node) };

    ghost invariant = { λ token. IsKeptOf token.text.now token.node };
}

impl<'d> JsonToken<'d> {
    /// Whether it begins or ends an array or object.
    pub fn kind(&self) -> TokenKind
        ensures { result ≡ kind_of_token self.now.token }
    {
        match self.node {
            Node::BeginArray(..) | Node::BeginObject(..) => TokenKind::Begin,
            Node::EndArray(_) | Node::EndObject(_) => TokenKind::End,
            _ => TokenKind::Single,
        }
    }

    /// The name of a member, if it is one (RFC 8259, section 4).
    pub fn name(&self) -> Option<JsonText<'d>>
        ensures { result ≡ member_name_in self.now }
    {
        match self.node {
            Node::Text(Place::Key, from, length) => {
                let from = from.get();
                Some(JsonText::new(&self.text[from..from + length as usize]))
            }
            _ => None,
        }
    }

    /// What it is, wherever it is.
    ///
    /// ```
    /// let doc = JsonDoc::read_str(alloc, "[42]")?;
    /// let mut tokens = doc.tokens();
    /// assert_eq!(rt; matches!(tokens.next().map(|token| token.mark()), Some(JsonMark::BeginArray)), true);
    /// assert_eq!(rt; matches!(tokens.next().map(|token| token.mark()), Some(JsonMark::Int(42))), true);
    /// ```
    pub fn mark(&self) -> JsonMark<'d>
        ensures { IsMarkOf self.now.token result }
    {
        match self.node {
            Node::Null(_) => JsonMark::Null,
            Node::Bool(_, value) => JsonMark::Bool(value),
            Node::Number(_, from, length) => {
                let from = from.get();
                mark_number(&self.text[from..from + length as usize])
            }
            Node::Text(_, from, length) => {
                let from = from.get();
                JsonMark::Text(JsonText::new(&self.text[from..from + length as usize]))
            }
            Node::BeginArray(..) => JsonMark::BeginArray,
            Node::EndArray(_) => JsonMark::EndArray,
            Node::BeginObject(..) => JsonMark::BeginObject,
            Node::EndObject(_) => JsonMark::EndObject,
        }
    }

    /// Makes its calls, with those that begin or end its place in an array or object.
    pub fn stream<S: Stream<Lent<'d>>>(&self, stream: &mut S) -> StreamResult
        ensures { Emits S.law result (S.standing stream.old) (makes (placed_token_calls self.now))
            (S.standing stream.new) }
    {
        self.node.stream(self.text, stream)
    }
}

/// What the token of a number is.
fn mark_number(text: &str) -> JsonMark<'_>
    requires { is_json_number text.now ≡ true }
    ensures { IsMarkOf (Number text.now) result }
{
    match i64_in(text) {
        Some(number) => JsonMark::Int(number),
        None => JsonMark::Number(text),
    }
}

/// The tokens of a document that are left, seen as a list of them.
///
/// ```
/// let doc = JsonDoc::read_str(alloc, "[null]")?;
/// let mut tokens = doc.tokens();
/// assert_eq!(rt; tokens.next().map(|token| token.kind()), Some(TokenKind::Begin));
/// assert_eq!(rt; tokens.next().map(|token| token.kind()), Some(TokenKind::Single));
/// assert_eq!(rt; tokens.next().map(|token| token.kind()), Some(TokenKind::End));
/// assert_eq!(rt; tokens.next().is_none(), true);
/// ```
#[derive(Drop)]
pub struct JsonTokens<'d> {
    text: &'d str,
    nodes: &'d [Node],
}

impl<'d> Model for JsonTokens<'d> {
    ghost use Rattle.std.specs.Prelude.{List, map};
    ghost use Rattle.sval_json_read.specs.Nodes.{tokens_in};
    ghost use Rattle.sval_json_read.specs.SeenNodes.{seen_node, AreKeptOf};
    ghost use Rattle.sval_json_read.specs.Tokens.{Placed};

    ghost Value = { List Placed };

    ghost view = { λ tokens. tokens_in tokens.text.now (map seen_node tokens.nodes.now) };

    ghost invariant = { λ tokens. AreKeptOf tokens.text.now tokens.nodes.now };
}

impl<'d> JsonTokens<'d> {
    /// The tokens of these nodes.
    pub(crate) fn new(text: &'d str, nodes: &'d [Node]) -> Self
        requires { AreKeptOf text.now nodes.now }
        ensures { result ≡ tokens_in text.now (map seen_node nodes.now) }
    {
        JsonTokens { text, nodes }
    }

    /// Takes the first token that is left.
    pub fn next(&mut self) -> Option<JsonToken<'d>>
        ensures { TakesFirstToken result self.old self.new }
    {
        match self.nodes.split_first() {
            None => None,
            Some((first, behind)) => {
                self.nodes = behind;
                Some(JsonToken {
                    text: self.text,
                    node: *first,
                })
            }
        }
    }
}
