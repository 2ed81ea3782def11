//! What a node may cost that is run.

ghost use Rattle.std.specs.Prelude.{◌≡◌, IfOk, option_map};
ghost use Rattle.clap.specs.Words.{app_of, found_of, rows_of};
ghost use Rattle.lus_live.specs.Limits.{are_kept, limit_of, limits_of, with_limits};

use clap::{ArgMatches, Command};
use itoa::Buffer;
use lus_asked::natural;
use lus_cli::lus_host::Cost;
use lus_cli::{value_of, with_value};
use lus_devices::{Sink, write_all};
use std::alloc::{AllocError, Global};

/// The most orders that a step of a node may obey, and the most bytes that an instance of it may take.
#[derive(Clone, Copy)]
pub struct Limits {
    pub orders: u64,
    pub bytes: u64,
}

/// A command with the options of limits.
pub fn with_limits<'a>(alloc: Global, command: Command<'a>) -> Result<Command<'a>, AllocError>
    ensures { IfOk result (λ c. app_of c ≡ with_limits (app_of command.entry)) }
{
    let orders = with_value(alloc, command, "most-orders")?;
    with_value(alloc, orders, "most-bytes")
}

/// The number that an option gives, or the greatest where it isn't among the words.
fn limit_of(text: Option<&str>) -> Option<u64>
    ensures { result ≡ limit_of (option_map (λ t. t.now) text.entry) }
{
    match text {
        Some(text) => natural(text),
        None => Some(u64::MAX),
    }
}

/// The limits that words give, which are numbers.
pub fn limits_in(matches: &ArgMatches<'_>) -> Option<Limits>
    ensures { result ≡ limits_of (rows_of (found_of matches.now)) }
{
    match (
        limit_of(value_of(matches, "most-orders")),
        limit_of(value_of(matches, "most-bytes")),
    ) {
        (Some(orders), Some(bytes)) => Some(Limits { orders, bytes }),
        _ => None,
    }
}

impl Limits {
    /// Whether a node costs no more.
    pub fn are_kept(self, cost: Cost) -> bool
        ensures { result ≡ are_kept self cost }
    {
        cost.orders <= self.orders && cost.instance_bytes <= self.bytes
    }
}

/// Says that something of a node takes more than an option allows, where it does.
fn tell_one<F: Sink>(faults: &mut F, before: &str, cost: u64, behind: &str, most: u64) {
    if cost <= most {
        return;
    }
    let (mut number, mut limit) = (Buffer::new(), Buffer::new());
    let (number, limit) = (number.format(cost), limit.format(most));
    for piece in ["note: ", before, number, behind, limit, "\n"] {
        let _ = write_all(faults, piece.as_bytes());
    }
}

/// Says what a node costs more than limits allow. What can't be written changes nothing.
pub fn tell_above<F: Sink>(cost: Cost, limits: Limits, faults: &mut F) {
    let (before, behind) = ("a step obeys up to ", " orders, more than --most-orders ");
    tell_one(faults, before, cost.orders, behind, limits.orders);
    let (before, behind) = ("an instance takes ", " bytes, more than --most-bytes ");
    tell_one(faults, before, cost.instance_bytes, behind, limits.bytes);
}
