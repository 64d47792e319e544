//! What adapters make, as the lines of a script.

use crate::shown::{has_printed, makes, must, new_printer};
use sval::{
    BinaryArray, BinarySlice, Display, MapSlice, StdDisplay, Stream, stream_display,
    stream_display_fragments, stream_number,
};

/// The text that is printed of 42.
const PRINTED: &str = "text_begin -\ntext_fragment_computed =3432\ntext_end\n";

#[test]
fn makes_printed_texts(rt: HostRuntime) {
    let alloc = rt.alloc();
    let number = must(&rt, Display::new(alloc, 42u8));
    makes(&rt, alloc, &number, PRINTED);
    let lent = must(&rt, Display::new_borrowed(alloc, &42u8));
    makes(&rt, alloc, &lent, PRINTED);
    let by_std = must(&rt, Display::new(alloc, StdDisplay { value: 42u8 }));
    makes(&rt, alloc, &by_std, PRINTED);
}

#[test]
fn makes_binaries_and_maps(rt: HostRuntime) {
    let alloc = rt.alloc();
    makes(
        &rt,
        alloc,
        &BinarySlice::new(b"abc"),
        "binary_begin 3\nbinary_fragment =616263\nbinary_end\n",
    );
    makes(
        &rt,
        alloc,
        &BinaryArray::new(b"abc"),
        "tagged_begin CONSTANT_SIZE - -\n\
         binary_begin 3\nbinary_fragment =616263\nbinary_end\n\
         tagged_end CONSTANT_SIZE - -\n",
    );
    makes(
        &rt,
        alloc,
        &MapSlice::new(&[(1u8, true)]),
        "map_begin 1\n\
         map_key_begin\nu8 1\nmap_key_end\n\
         map_value_begin\nbool true\nmap_value_end\n\
         map_end\n",
    );
}

/// A printed text, a fragment of one, and a printed number.
const STREAMED: &str = "text_begin -\ntext_fragment_computed =3432\ntext_end\n\
    text_fragment_computed =3432\n\
    tagged_begin NUMBER - -\n\
    text_begin -\ntext_fragment_computed =3432\ntext_end\n\
    tagged_end NUMBER - -\n";

#[test]
fn streams_what_is_printed(rt: HostRuntime) {
    let alloc = rt.alloc();
    let mut printer = new_printer(alloc);
    must(&rt, stream_display(alloc, &mut printer, &42u8));
    must(&rt, stream_display_fragments(alloc, &mut printer, &42u8));
    must(&rt, stream_number(alloc, &mut printer, &42u8));
    has_printed(&rt, printer, STREAMED);
}

/// A whole text, and one that is a key.
const WHOLE: &str = "text_begin 2\ntext_fragment =6869\ntext_end\n\
    map_key_begin\ntext_begin -\ntext_fragment =6869\ntext_end\nmap_key_end\n";

#[test]
fn streams_whole_texts(rt: HostRuntime) {
    let mut printer = new_printer(rt.alloc());
    must(&rt, printer.whole_text("hi", Some(2)));
    must(&rt, printer.whole_text_key("hi", None));
    has_printed(&rt, printer, WHOLE);
}
