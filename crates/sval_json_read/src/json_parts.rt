//! The items of arrays, and the pairs of objects.

ghost use Rattle.std.specs.Prelude.{◌≡◌, ◌<◌, map, length, drop, slice_get};
ghost use Rattle.sval_json_read.specs.Lookups.{last_named, values_listed, paired};
ghost use Rattle.sval_json_read.specs.Nodes.{tokens_in};
ghost use Rattle.sval_json_read.specs.Pointers.{last_referenced};
ghost use Rattle.sval_json_read.specs.SeenNodes.{seen_node};
ghost use Rattle.sval_json_read.specs.SeenValues.{values_in, members_in};
ghost use Rattle.sval_json_read.specs.ValueNodes.{AreOfValues, AreOfMembers};
ghost use Rattle.sval_json_read.specs.SeenParts.{TakesFirstPart, TakesFirstPair};

use crate::json_ref::JsonRef;
use crate::json_text::JsonText;
use crate::node::Node;
use crate::span::value_len;
use std::marker::Model;

/// The items of an array that are left, seen as a list of them.
#[derive(Drop)]
pub struct JsonItems<'d> {
    text: &'d str,
    nodes: &'d [Node],
}

impl<'d> Model for JsonItems<'d> {
    ghost use Rattle.std.specs.Prelude.{List, map};
    ghost use Rattle.sval_json.specs.Grammar.{JsonValue};
    ghost use Rattle.sval_json_read.specs.Nodes.{tokens_in};
    ghost use Rattle.sval_json_read.specs.SeenNodes.{seen_node};
    ghost use Rattle.sval_json_read.specs.SeenValues.{values_in};
    ghost use Rattle.sval_json_read.specs.Lookups.{values_listed};
    ghost use Rattle.std.specs.Coded.{coded_list};
    ghost use Rattle.sval_json_read.specs.ValueCodes.{value_code};
    ghost use Rattle.sval_json_read.specs.ValueNodes.{AreOfValues};

    ghost Value = { List JsonValue };

    ghost coded = { coded_list value_code };

    ghost view = { λ items. values_listed (values_in (tokens_in items.text.now (map seen_node items.nodes.now))) };

    ghost invariant = { λ items. AreOfValues items.text.now items.nodes.now };
}

impl<'d> JsonItems<'d> {
    /// The items that these nodes are of.
    pub(crate) fn new(text: &'d str, nodes: &'d [Node]) -> Self
        requires { AreOfValues text.now nodes.now }
        ensures { result ≡ values_listed (values_in (tokens_in text.now (map seen_node nodes.now))) }
    {
        JsonItems { text, nodes }
    }

    /// Takes the first item that is left.
    pub fn next(&mut self) -> Option<JsonRef<'d>>
        ensures { TakesFirstPart result self.old self.new }
    {
        if self.nodes.is_empty() {
            return None;
        }
        let (first, behind) = self.nodes.split_at(value_len(self.nodes));
        self.nodes = behind;
        Some(JsonRef::new(self.text, first))
    }

    /// The item at this index among those that are left.
    #[tactic(auto, using(crate::proofs::PartCounts::behind_first))]
    pub(crate) fn nth(self, index: usize) -> Option<JsonRef<'d>>
        ensures { result ≡ slice_get self.entry index }
    {
        let mut left = self;
        let mut before = index;
        while let Some(item) = left.next() {
            if before == 0 {
                return Some(item);
            }
            before -= 1;
        }
        None
    }

    /// How many items are left.
    pub(crate) fn count(self) -> usize
        ensures { result ≡ length self.entry }
    {
        let most = self.nodes.len();
        let mut left = self;
        let mut count = 0;
        while count < most && left.next().is_some() {
            count += 1;
        }
        count
    }
}

/// A member of an object (RFC 8259, section 4).
#[derive(Drop)]
pub struct JsonMember<'d> {
    /// The text of its key.
    pub name: JsonText<'d>,
    pub value: JsonRef<'d>,
}

/// The members of an object that are left, seen as a list of them.
#[derive(Drop)]
pub struct JsonMembers<'d> {
    text: &'d str,
    nodes: &'d [Node],
}

impl<'d> Model for JsonMembers<'d> {
    ghost use Rattle.std.specs.Prelude.{List, map};
    ghost use Rattle.sval_json_read.specs.Nodes.{tokens_in};
    ghost use Rattle.sval_json_read.specs.SeenNodes.{seen_node};
    ghost use Rattle.sval_json_read.specs.SeenValues.{members_in};
    ghost use Rattle.sval_json_read.specs.Lookups.{Member, paired};
    ghost use Rattle.std.specs.Coded.{coded_list};
    ghost use Rattle.sval_json_read.specs.ValueCodes.{member_code};
    ghost use Rattle.sval_json_read.specs.ValueNodes.{AreOfMembers};

    ghost Value = { List Member };

    ghost coded = { coded_list member_code };

    ghost view = { λ members. paired (members_in (tokens_in members.text.now (map seen_node members.nodes.now))) };

    ghost invariant = { λ members. AreOfMembers members.text.now members.nodes.now };
}

impl<'d> JsonMembers<'d> {
    /// The pairs that these nodes are of.
    pub(crate) fn new(text: &'d str, nodes: &'d [Node]) -> Self
        requires { AreOfMembers text.now nodes.now }
        ensures { result ≡ paired (members_in (tokens_in text.now (map seen_node nodes.now))) }
    {
        JsonMembers { text, nodes }
    }

    /// Takes the first member that is left.
    pub fn next(&mut self) -> Option<JsonMember<'d>>
        ensures { TakesFirstPair result self.old self.new }
    {
        if self.nodes.is_empty() {
            return None;
        }
        match self.nodes[0] {
            Node::Text(_, from, length) => {
                let from = from.get();
                let name = JsonText::new(&self.text[from..from + length as usize]);
                let values = behind_first(self.nodes);
                let (first, behind) = values.split_at(value_len(values));
                self.nodes = behind;
                Some(JsonMember {
                    name,
                    value: JsonRef::new(self.text, first),
                })
            },
            _ => unreachable!(),
        }
    }

    /// How many pairs are left.
    pub(crate) fn count(self) -> usize
        ensures { result ≡ length self.entry }
    {
        let most = self.nodes.len();
        let mut left = self;
        let mut count = 0;
        while count < most && left.next().is_some() {
            count += 1;
        }
        count
    }

    /// The value of the last member with this name among those that are left.
    pub(crate) fn last_named(self, name: &str) -> Option<JsonRef<'d>>
        ensures { result ≡ last_named name.now self.entry }
    {
        let mut left = self;
        let mut found = None;
        while let Some(member) = left.next() {
            if member.name.is(name) {
                found = Some(member.value);
            }
        }
        found
    }

    /// The value of the last member whose name has this reference token (RFC 6901) among those that are left.
    pub(crate) fn last_referenced(self, token: &str) -> Option<JsonRef<'d>>
        ensures { result ≡ last_referenced token.now self.entry }
    {
        let mut left = self;
        let mut last = None;
        while let Some(member) = left.next() {
            if member.name.has_token(token) {
                last = Some(member.value);
            }
        }
        last
    }
}

/// The nodes behind the first.
fn behind_first(nodes: &[Node]) -> &[Node]
    requires { 0 < length nodes.now }
    ensures { result.now ≡ drop 1 nodes.now }
{
    nodes.split_at(1).1
}
