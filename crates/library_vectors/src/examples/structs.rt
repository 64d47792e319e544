//! Structs and enums of a user's own: the JSON of each, and what is made of one in other ways.

use super::forms::has_form;
use crate::shown::{copy_of, holds, makes, must, shows};
use records::{Body, Event, Headers, Item, Level, MyRecord, Order, Payment, Request, Site};
use std::alloc::Global;
use std::process::Abort;
use sval_check::check;
use sval_json::stream_to_string;

#[test]
fn a_struct_is_a_record_tuple(rt: HostRuntime) {
    let value = MyRecord {
        field_0: 1,
        field_1: true,
        field_2: "some text",
    };
    shows(
        &rt,
        stream_to_string(rt.alloc(), &value),
        "{\"field_0\":1,\"field_1\":true,\"field_2\":\"some text\"}",
    );
    makes(
        &rt,
        rt.alloc(),
        &value,
        "record_tuple_begin - =4d795265636f7264:VALUE_IDENT - 3\n\
         record_tuple_value_begin - =6669656c645f30:VALUE_IDENT 0:VALUE_OFFSET\n\
         i32 1\n\
         record_tuple_value_end - =6669656c645f30:VALUE_IDENT 0:VALUE_OFFSET\n\
         record_tuple_value_begin - =6669656c645f31:VALUE_IDENT 1:VALUE_OFFSET\n\
         bool true\n\
         record_tuple_value_end - =6669656c645f31:VALUE_IDENT 1:VALUE_OFFSET\n\
         record_tuple_value_begin - =6669656c645f32:VALUE_IDENT 2:VALUE_OFFSET\n\
         text_begin 9\n\
         text_fragment =736f6d652074657874\n\
         text_end\n\
         record_tuple_value_end - =6669656c645f32:VALUE_IDENT 2:VALUE_OFFSET\n\
         record_tuple_end - =4d795265636f7264:VALUE_IDENT -\n",
    );
}

/// The JSON of an event with a row of tags and without a user.
pub(super) const EVENT: &'static str =
    r#"{"ts":"2026-11-29","level":"Error","msg":"disk \"a\" is full","status":507,"user":null,"tags":["a","b\""],"site":{"file":"disk.rs","line":7}}"#;

/// That event.
pub(super) fn disk_is_full(rt: &impl Abort, alloc: Global) -> Event {
    let tags = vec![in alloc; copy_of(rt, alloc, "a"), copy_of(rt, alloc, "b\"")];
    Event {
        ts: copy_of(rt, alloc, "2026-11-29"),
        level: Level::Error,
        msg: copy_of(rt, alloc, "disk \"a\" is full"),
        status: 507,
        user: None,
        tags: must(rt, tags),
        site: Site {
            file: copy_of(rt, alloc, "disk.rs"),
            line: 7,
        },
    }
}

#[test]
fn fields_may_be_rows_and_none(rt: HostRuntime) {
    let alloc = rt.alloc();
    let event = disk_is_full(&rt, alloc);
    holds(&rt, check(alloc, &event).is_ok(), "the event is whole");
    shows(&rt, stream_to_string(alloc, &event), EVENT);
}

/// The JSON of an order with a struct, a row of structs and an enum.
const ORDER: &'static str =
    r#"{"id":7,"sent":false,"customer":"C","remark":5,"first":{"name":"bolt","count":3},"others":[{"name":"nut","count":-2}],"payment":{"Card":{"digits":1234,"charged":true}}}"#;

#[test]
fn fields_may_be_structs(rt: HostRuntime) {
    let alloc = rt.alloc();
    let nut = Item {
        name: "nut",
        count: -2,
    };
    let order = Order {
        id: 7,
        sent: false,
        customer: copy_of(&rt, alloc, "C"),
        remark: Some(5),
        first: Item {
            name: "bolt",
            count: 3,
        },
        others: must(&rt, vec![in alloc; nut]),
        payment: Payment::Card {
            digits: 1234,
            charged: true,
        },
    };
    holds(&rt, check(alloc, &order).is_ok(), "the order is whole");
    shows(&rt, stream_to_string(alloc, &order), ORDER);
}

#[test]
fn variants_are_their_names(rt: HostRuntime) {
    let alloc = rt.alloc();
    shows(&rt, stream_to_string(alloc, &Payment::Open), "\"Open\"");
    let transfer = Payment::Transfer(copy_of(&rt, alloc, "r1"));
    holds(&rt, check(alloc, &transfer).is_ok(), "it is whole");
    shows(
        &rt,
        stream_to_string(alloc, &transfer),
        "{\"Transfer\":\"r1\"}",
    );
    shows(&rt, stream_to_string(alloc, &Level::Debug), "\"Debug\"");
}

/// The form, as [`has_form`] has it, of a struct whose fields lend a map and bytes: no fragment is computed.
const REQUEST: &'static str = r#"{"path":"/x","headers":{"Host":"a.b"},"body":[0,255]}
{"path":"/x","headers":{"Host":"a.b"},"body":[0,255]}
record_tuple_begin - =52657175657374:VALUE_IDENT - 3
record_tuple_value_begin - =70617468:VALUE_IDENT 0:VALUE_OFFSET
text_begin 2
text_fragment =2f78
text_end
record_tuple_value_end - =70617468:VALUE_IDENT 0:VALUE_OFFSET
record_tuple_value_begin - =68656164657273:VALUE_IDENT 1:VALUE_OFFSET
map_begin 1
map_key_begin
text_begin 4
text_fragment =486f7374
text_end
map_key_end
map_value_begin
text_begin 3
text_fragment =612e62
text_end
map_value_end
map_end
record_tuple_value_end - =68656164657273:VALUE_IDENT 1:VALUE_OFFSET
record_tuple_value_begin - =626f6479:VALUE_IDENT 2:VALUE_OFFSET
binary_begin 2
binary_fragment =00ff
binary_end
record_tuple_value_end - =626f6479:VALUE_IDENT 2:VALUE_OFFSET
record_tuple_end - =52657175657374:VALUE_IDENT -
"#;

#[test]
fn fields_lend_maps_and_bytes(rt: HostRuntime) {
    let alloc = rt.alloc();
    let host = (copy_of(&rt, alloc, "Host"), copy_of(&rt, alloc, "a.b"));
    let request = Request {
        path: copy_of(&rt, alloc, "/x"),
        headers: Headers(must(&rt, vec![in alloc; host])),
        body: Body(must(&rt, vec![in alloc; 0, 255])),
    };
    has_form(&rt, alloc, &request, REQUEST);
}
