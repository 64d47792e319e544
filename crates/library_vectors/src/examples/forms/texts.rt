//! The forms of structs and of variants. Of each the first line is its JSON, the second its JSON with each variant beside
//! its name, and the others are the lines of its calls.

/// `Origin`
pub(super) const ORIGIN: &'static str = r#""Origin"
"Origin"
tag - =4f726967696e:VALUE_IDENT -
"#;

/// `Metres(3)`
pub(super) const METRES: &'static str = r#"3
3
tagged_begin - =4d6574726573:VALUE_IDENT -
u32 3
tagged_end - =4d6574726573:VALUE_IDENT -
"#;

/// `Point(-1, 2)`
pub(super) const POINT: &'static str = r#"[-1,2]
[-1,2]
tuple_begin - =506f696e74:VALUE_IDENT - 2
tuple_value_begin - 0:VALUE_OFFSET
i32 -1
tuple_value_end - 0:VALUE_OFFSET
tuple_value_begin - 1:VALUE_OFFSET
i32 2
tuple_value_end - 1:VALUE_OFFSET
tuple_end - =506f696e74:VALUE_IDENT -
"#;

/// `Blank()`
pub(super) const BLANK: &'static str = r#"[]
[]
tuple_begin - =426c616e6b:VALUE_IDENT - 0
tuple_end - =426c616e6b:VALUE_IDENT -
"#;

/// `Item { name: "nut", count: -2 }`
pub(super) const ITEM: &'static str = r#"{"name":"nut","count":-2}
{"name":"nut","count":-2}
record_tuple_begin - =4974656d:VALUE_IDENT - 2
record_tuple_value_begin - =6e616d65:VALUE_IDENT 0:VALUE_OFFSET
text_begin 3
text_fragment =6e7574
text_end
record_tuple_value_end - =6e616d65:VALUE_IDENT 0:VALUE_OFFSET
record_tuple_value_begin - =636f756e74:VALUE_IDENT 1:VALUE_OFFSET
i64 -2
record_tuple_value_end - =636f756e74:VALUE_IDENT 1:VALUE_OFFSET
record_tuple_end - =4974656d:VALUE_IDENT -
"#;

/// `Bare {}`
pub(super) const BARE: &'static str = r#"{}
{}
record_tuple_begin - =42617265:VALUE_IDENT - 0
record_tuple_end - =42617265:VALUE_IDENT -
"#;

/// `Pair { left: 1u8, right: "a" }`
pub(super) const PAIR: &'static str = r#"{"left":1,"right":"a"}
{"left":1,"right":"a"}
record_tuple_begin - =50616972:VALUE_IDENT - 2
record_tuple_value_begin - =6c656674:VALUE_IDENT 0:VALUE_OFFSET
u8 1
record_tuple_value_end - =6c656674:VALUE_IDENT 0:VALUE_OFFSET
record_tuple_value_begin - =7269676874:VALUE_IDENT 1:VALUE_OFFSET
text_begin 1
text_fragment =61
text_end
record_tuple_value_end - =7269676874:VALUE_IDENT 1:VALUE_OFFSET
record_tuple_end - =50616972:VALUE_IDENT -
"#;

/// `Interval('a', 'z')`
pub(super) const INTERVAL: &'static str = r#"["a","z"]
["a","z"]
tuple_begin - =496e74657276616c:VALUE_IDENT - 2
tuple_value_begin - 0:VALUE_OFFSET
text_begin 1
text_fragment_computed =61
text_end
tuple_value_end - 0:VALUE_OFFSET
tuple_value_begin - 1:VALUE_OFFSET
text_begin 1
text_fragment_computed =7a
text_end
tuple_value_end - 1:VALUE_OFFSET
tuple_end - =496e74657276616c:VALUE_IDENT -
"#;

/// `Versioned { version: 2, value: Origin }`
pub(super) const VERSIONED: &'static str = r#"{"version":2,"value":"Origin"}
{"version":2,"value":"Origin"}
record_tuple_begin - =56657273696f6e6564:VALUE_IDENT - 2
record_tuple_value_begin - =76657273696f6e:VALUE_IDENT 0:VALUE_OFFSET
u32 2
record_tuple_value_end - =76657273696f6e:VALUE_IDENT 0:VALUE_OFFSET
record_tuple_value_begin - =76616c7565:VALUE_IDENT 1:VALUE_OFFSET
tag - =4f726967696e:VALUE_IDENT -
record_tuple_value_end - =76616c7565:VALUE_IDENT 1:VALUE_OFFSET
record_tuple_end - =56657273696f6e6564:VALUE_IDENT -
"#;

/// `Shape::Empty`
pub(super) const EMPTY: &'static str = r#""Empty"
"Empty"
enum_begin - =5368617065:VALUE_IDENT -
tag - =456d707479:VALUE_IDENT 0:VALUE_OFFSET
enum_end - =5368617065:VALUE_IDENT -
"#;

/// `Shape::Circle(Metres(3))`
pub(super) const CIRCLE: &'static str = r#"{"Circle":3}
{"variant":"Circle","value":3}
enum_begin - =5368617065:VALUE_IDENT -
tagged_begin - =436972636c65:VALUE_IDENT 1:VALUE_OFFSET
tagged_begin - =4d6574726573:VALUE_IDENT -
u32 3
tagged_end - =4d6574726573:VALUE_IDENT -
tagged_end - =436972636c65:VALUE_IDENT 1:VALUE_OFFSET
enum_end - =5368617065:VALUE_IDENT -
"#;

/// `Shape::Segment(Point(0, 0), Point(1, -1))`
pub(super) const SEGMENT: &'static str = r#"{"Segment":[[0,0],[1,-1]]}
{"variant":"Segment","value":[[0,0],[1,-1]]}
enum_begin - =5368617065:VALUE_IDENT -
tuple_begin - =5365676d656e74:VALUE_IDENT 2:VALUE_OFFSET 2
tuple_value_begin - 0:VALUE_OFFSET
tuple_begin - =506f696e74:VALUE_IDENT - 2
tuple_value_begin - 0:VALUE_OFFSET
i32 0
tuple_value_end - 0:VALUE_OFFSET
tuple_value_begin - 1:VALUE_OFFSET
i32 0
tuple_value_end - 1:VALUE_OFFSET
tuple_end - =506f696e74:VALUE_IDENT -
tuple_value_end - 0:VALUE_OFFSET
tuple_value_begin - 1:VALUE_OFFSET
tuple_begin - =506f696e74:VALUE_IDENT - 2
tuple_value_begin - 0:VALUE_OFFSET
i32 1
tuple_value_end - 0:VALUE_OFFSET
tuple_value_begin - 1:VALUE_OFFSET
i32 -1
tuple_value_end - 1:VALUE_OFFSET
tuple_end - =506f696e74:VALUE_IDENT -
tuple_value_end - 1:VALUE_OFFSET
tuple_end - =5365676d656e74:VALUE_IDENT 2:VALUE_OFFSET
enum_end - =5368617065:VALUE_IDENT -
"#;

/// `Shape::Rectangle { width: Metres(4), height: Metres(5) }`
pub(super) const RECTANGLE: &'static str = r#"{"Rectangle":{"width":4,"height":5}}
{"variant":"Rectangle","value":{"width":4,"height":5}}
enum_begin - =5368617065:VALUE_IDENT -
record_tuple_begin - =52656374616e676c65:VALUE_IDENT 3:VALUE_OFFSET 2
record_tuple_value_begin - =7769647468:VALUE_IDENT 0:VALUE_OFFSET
tagged_begin - =4d6574726573:VALUE_IDENT -
u32 4
tagged_end - =4d6574726573:VALUE_IDENT -
record_tuple_value_end - =7769647468:VALUE_IDENT 0:VALUE_OFFSET
record_tuple_value_begin - =686569676874:VALUE_IDENT 1:VALUE_OFFSET
tagged_begin - =4d6574726573:VALUE_IDENT -
u32 5
tagged_end - =4d6574726573:VALUE_IDENT -
record_tuple_value_end - =686569676874:VALUE_IDENT 1:VALUE_OFFSET
record_tuple_end - =52656374616e676c65:VALUE_IDENT 3:VALUE_OFFSET
enum_end - =5368617065:VALUE_IDENT -
"#;

/// `Odd::Nothing()`
pub(super) const NOTHING: &'static str = r#"{"Nothing":[]}
{"variant":"Nothing","value":[]}
enum_begin - =4f6464:VALUE_IDENT -
tuple_begin - =4e6f7468696e67:VALUE_IDENT 0:VALUE_OFFSET 0
tuple_end - =4e6f7468696e67:VALUE_IDENT 0:VALUE_OFFSET
enum_end - =4f6464:VALUE_IDENT -
"#;

/// `Odd::Hollow {}`
pub(super) const HOLLOW: &'static str = r#"{"Hollow":{}}
{"variant":"Hollow","value":{}}
enum_begin - =4f6464:VALUE_IDENT -
record_tuple_begin - =486f6c6c6f77:VALUE_IDENT 1:VALUE_OFFSET 0
record_tuple_end - =486f6c6c6f77:VALUE_IDENT 1:VALUE_OFFSET
enum_end - =4f6464:VALUE_IDENT -
"#;

/// `Odd::Shaped(Shape::Circle(Metres(3)))`
pub(super) const SHAPED: &'static str = r#"{"Shaped":{"Circle":3}}
{"variant":"Shaped","value":{"variant":"Circle","value":3}}
enum_begin - =4f6464:VALUE_IDENT -
tagged_begin - =536861706564:VALUE_IDENT 2:VALUE_OFFSET
enum_begin - =5368617065:VALUE_IDENT -
tagged_begin - =436972636c65:VALUE_IDENT 1:VALUE_OFFSET
tagged_begin - =4d6574726573:VALUE_IDENT -
u32 3
tagged_end - =4d6574726573:VALUE_IDENT -
tagged_end - =436972636c65:VALUE_IDENT 1:VALUE_OFFSET
enum_end - =5368617065:VALUE_IDENT -
tagged_end - =536861706564:VALUE_IDENT 2:VALUE_OFFSET
enum_end - =4f6464:VALUE_IDENT -
"#;
