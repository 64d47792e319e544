//! Lines of records.

use crate::shown::{script_of, shows};
use assert_tokens::Point;
use logfmt::to_logfmt;
use records::MyRecord;

/// The calls of a record of a text in two parts, a number and a truth value.
const REQUEST: &str = "\
    record_begin - - - 3\n\
    record_value_begin - =73616964\n\
    text_begin -\n\
    text_fragment_computed =61202262220a\n\
    text_fragment_computed =01635c\n\
    text_end\n\
    record_value_end - =73616964\n\
    record_value_begin - =737461747573\n\
    u16 200\n\
    record_value_end - =737461747573\n\
    record_value_begin - =6f6b\n\
    bool true\n\
    record_value_end - =6f6b\n\
    record_end - - -\n";

#[test]
fn writes_each_call(rt: HostRuntime) {
    let request = script_of(&rt, rt.alloc(), REQUEST);
    shows(
        &rt,
        to_logfmt(rt.alloc(), &request),
        "said=\"a \\\"b\\\"\\n\\u0001c\\\\\" status=200 ok=true",
    );
}

#[test]
fn writes_a_struct(rt: HostRuntime) {
    let value = MyRecord {
        field_0: 1,
        field_1: true,
        field_2: "some text",
    };
    shows(
        &rt,
        to_logfmt(rt.alloc(), &value),
        "field_0=1 field_1=true field_2=\"some text\"",
    );
}

#[test]
fn writes_a_point(rt: HostRuntime) {
    let alloc = rt.alloc();
    shows(&rt, to_logfmt(alloc, &Point { x: 3, y: -4 }), "x=3 y=-4");
    let error = to_logfmt(alloc, &7).err();
    shows(&rt, format!(in alloc; "{error:?}"), "Some(NotFlat)");
}
