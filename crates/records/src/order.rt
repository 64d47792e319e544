//! A struct with structs and an enum within it.

ghost use Rattle.records.specs.Records.{item_emission, payment_emission, order_emission};

use sval::{
    Lent, Result, Stream, Value, fields, stream_struct, stream_struct_variant, stream_unit_variant,
    stream_value_variant,
};

/// A line of an order.
#[derive(Clone, Copy, Debug)]
pub struct Item<'a> {
    /// What is bought.
    pub name: &'a str,
    /// How many.
    pub count: i64,
}

impl<'v, 'a> Value<'v, Lent<'v>> for Item<'a> {
    ghost emission = { item_emission };

    fn stream<S: Stream<Lent<'v>>>(&'v self, stream: &mut S) -> Result {
        stream_struct(stream, "Item", fields!(self, name, count))
    }
}

/// How an order is paid.
#[derive(Drop, Debug)]
pub enum Payment {
    /// Not yet.
    Open,
    /// By a transfer with this reference.
    Transfer(String),
    /// By a card.
    Card {
        /// Its last four digits.
        digits: u16,
        /// Whether it was charged.
        charged: bool,
    },
}

impl<'v> Value<'v, Lent<'v>> for Payment {
    ghost emission = { payment_emission };

    fn stream<S: Stream<Lent<'v>>>(&'v self, stream: &mut S) -> Result {
        match self {
            Payment::Open => stream_unit_variant(stream, "Payment", "Open", 0),
            Payment::Transfer(reference) => stream_value_variant(
                stream, "Payment", "Transfer", 1, reference,
            ),
            Payment::Card { digits, charged } => {
                stream_struct_variant(
                    stream,
                    "Payment",
                    "Card",
                    2,
                    ("digits", digits, ("charged", charged, ())),
                )
            }
        }
    }
}

/// An order.
#[derive(Drop, Debug)]
pub struct Order<'a> {
    /// Its number.
    pub id: i64,
    /// Whether it was sent.
    pub sent: bool,
    /// Who ordered.
    pub customer: String,
    /// A remark, if there is one.
    pub remark: Option<i64>,
    /// The first line.
    pub first: Item<'a>,
    /// The other lines.
    pub others: Vec<Item<'a>>,
    /// How it is paid.
    pub payment: Payment,
}

impl<'v, 'a> Value<'v, Lent<'v>> for Order<'a> {
    ghost emission = { order_emission };

    fn stream<S: Stream<Lent<'v>>>(&'v self, stream: &mut S) -> Result {
        stream_struct(
            stream,
            "Order",
            fields!(self, id, sent, customer, remark, first, others, payment),
        )
    }
}
