//! A value change dump (VCD) of instances, a time for each accepted instant, which is made of each as its columns come.

use crate::cutting::parts_between;
use crate::scopes::push_way;
use crate::titles::title_of;
use crate::trace::{Heading, Signal, SignalKind};
use crate::values::{entry_text, same_entry};
use lus_diagrams::{Column, Head};
use lus_printable::printable;
use lus_values::{Memory, Names, Row, Value};
use std::alloc::{AllocError, Global};
use std::mem;

/// What a dump has of an instance by its number from 1: its declarations, and what changes at each time. That of the first is a whole dump
/// of this instance alone.
#[derive(Drop)]
pub struct Dump {
    number: usize,
    kinds: Vec<SignalKind>,
    text: String,
    /// Where the declarations end in the text, and what changes at each time so far.
    ends: Vec<usize>,
    /// The names of the events behind the last time.
    events: String,
    /// Whether there were any before it, and what stands at it.
    has_events: bool,
    cells: Row,
}

/// Appends a text with `_` for each blank, since a blank ends a value and a name.
fn push_word(out: &mut String, text: &str) -> Result<(), AllocError> {
    for part in text.chars() {
        out.push(if part == ' ' { '_' } else { part })?;
    }
    Ok(())
}

/// The type and the size of a signal in its declaration.
fn declared(kind: SignalKind) -> &'static str {
    match kind {
        SignalKind::Truth => "wire 1",
        SignalKind::Number => "integer 64",
        SignalKind::Text => "string 1",
    }
}

/// Appends the declarations of an instance's signals, each in the scope of the called node that has it.
fn push_signals(
    alloc: Global,
    out: &mut String,
    number: usize,
    signals: &[Signal],
) -> Result<(), AllocError> {
    let mut open = Vec::new(alloc);
    for (place, signal) in signals.iter().enumerate() {
        let mut way = parts_between(alloc, &signal.name, '.')?;
        let name = way.pop().unwrap_or("");
        push_way(out, &open, &way)?;
        let (kind, place) = (declared(signal.kind), place.saturating_add(1));
        write!(out, "$var {kind} v{number}.{place} ")?;
        push_word(out, name)?;
        out.push_str(" $end\n")?;
        open = way;
    }
    push_way(out, &open, &[])
}

/// Appends the declarations of an instance: the number of the instant, an event and its name, and below the node's name its signals.
fn push_scope(
    alloc: Global,
    out: &mut String,
    number: usize,
    heading: &Heading,
    signals: &[Signal],
) -> Result<(), AllocError> {
    let instance = printable(alloc, heading.instance.as_bytes())?;
    write!(out, "$scope module {instance} $end\n")?;
    write!(out, "$var integer 64 n{number} instant $end\n")?;
    write!(out, "$var event 1 e{number} event $end\n")?;
    write!(out, "$var string 1 t{number} events $end\n")?;
    write!(out, "$scope module {} $end\n", heading.node)?;
    push_signals(alloc, out, number, signals)?;
    out.push_str("$upscope $end\n$upscope $end\n")
}

/// Appends a text up to the code of its signal.
fn push_text(out: &mut String, text: &str) -> Result<(), AllocError> {
    out.push_str("s")?;
    push_word(out, text)?;
    out.push_str(" ")
}

/// Appends an entry up to the code of its signal: a truth value as a wire, a number in two's complement without the zeros before it, `x`
/// where these are absent or nil, or a text.
fn push_value(
    alloc: Global,
    out: &mut String,
    names: &Names,
    kind: SignalKind,
    entry: Option<&Value>,
) -> Result<(), Memory> {
    match (kind, entry) {
        (SignalKind::Truth, Some(Value::Bool(true))) => out.push_str("1")?,
        (SignalKind::Truth, Some(Value::Bool(false))) => out.push_str("0")?,
        (SignalKind::Truth, _) => out.push_str("x")?,
        (SignalKind::Number, Some(Value::Int(number))) => write!(out, "b{number:b} ")?,
        (SignalKind::Number, _) => out.push_str("bx ")?,
        (SignalKind::Text, _) => push_text(out, &entry_text(alloc, names, entry)?)?,
    }
    Ok(())
}

/// What stands before the declarations, and between them and the first time.
const OPENING: &str =
    "$comment time n is the n-th accepted instant of each instance $end\n$timescale 1 s $end\n";

const DECLARED: &str = "$enddefinitions $end\n#0\n$dumpvars\n";

/// Appends what stands before what changes at a time. What stands at the first one are values.
fn push_time(out: &mut String, time: usize) -> Result<(), AllocError> {
    match time {
        0 => out.push_str(DECLARED),
        1 => out.push_str("$end\n#1\n"),
        _ => write!(out, "#{time}\n"),
    }
}

impl Dump {
    /// The declarations of an instance of this number, and its beginning, where nothing has a value.
    pub fn new(
        alloc: Global,
        names: &Names,
        number: usize,
        heading: &Heading,
        signals: &[Signal],
    ) -> Result<Dump, Memory> {
        let mut text = String::new(alloc);
        if number == 1 {
            text.push_str(OPENING)?;
        }
        push_scope(alloc, &mut text, number, heading, signals)?;
        let mut ends = Vec::new(alloc);
        ends.push(text.len())?;
        let mut kinds = Vec::new(alloc);
        for signal in signals {
            kinds.push(signal.kind)?;
        }
        let mut dump = Dump {
            number,
            kinds,
            text,
            ends,
            events: String::new(alloc),
            has_events: true,
            cells: Row::new(Vec::new(alloc)),
        };
        dump.push_frame(alloc, names, None, Row::new(Vec::new(alloc)))?;
        Ok(dump)
    }

    /// Appends the number of an instant, if there is one, and the events before it, where it or the time before has any.
    fn push_instant(&mut self, alloc: Global, instant: Option<u64>) -> Result<(), AllocError> {
        let (out, number) = (&mut self.text, self.number);
        match instant {
            Some(instant) => write!(out, "b{instant:b} n{number}\n")?,
            None => write!(out, "bx n{number}\n")?,
        }
        let events = mem::replace(&mut self.events, String::new(alloc));
        if !events.is_empty() {
            write!(out, "1e{number}\n")?;
        }
        if !events.is_empty() || self.has_events {
            push_text(out, &events)?;
            write!(out, "t{number}\n")?;
        }
        self.has_events = !events.is_empty();
        Ok(())
    }

    /// Goes on by a time at which these cells stand: at the first one each signal has a value, behind it what changed.
    fn push_frame(
        &mut self,
        alloc: Global,
        names: &Names,
        instant: Option<u64>,
        cells: Row,
    ) -> Result<(), Memory> {
        let (number, time) = (self.number, self.ends.len().saturating_sub(1));
        if number == 1 {
            push_time(&mut self.text, time)?;
        }
        self.push_instant(alloc, instant)?;
        for (place, kind) in self.kinds.iter().enumerate() {
            let value = entry_at(&cells, place);
            if time == 0 || !same_entry(entry_at(&self.cells, place), value) {
                push_value(alloc, &mut self.text, names, *kind, value)?;
                write!(self.text, "v{number}.{}\n", place.saturating_add(1))?;
            }
        }
        self.cells = cells;
        self.ends.push(self.text.len())?;
        Ok(())
    }

    /// Goes on by a column: an instant is a time, and an event stands before the next one.
    pub fn push(&mut self, alloc: Global, names: &Names, column: Column) -> Result<(), Memory> {
        if let Head::Instant(number) = column.head {
            return self.push_frame(alloc, names, Some(number), column.cells);
        }
        if !self.events.is_empty() {
            self.events.push_str(",")?;
        }
        self.events.push_str(&title_of(alloc, column.head)?)?;
        Ok(())
    }

    /// Goes on by the end, where nothing has a value.
    pub fn end(&mut self, alloc: Global, names: &Names) -> Result<(), Memory> {
        self.push_frame(alloc, names, None, Row::new(Vec::new(alloc)))
    }

    /// A piece of the text: the declarations, or behind them what changes at a time.
    fn piece(&self, place: usize) -> &str {
        let from = match place {
            0 => 0,
            _ => self.ends.get(place - 1).copied().unwrap_or(self.text.len()),
        };
        let to = self.ends.get(place).copied().unwrap_or(self.text.len());
        self.text.get(from..to).unwrap_or("")
    }
}

/// The entry of a row, if there is one.
fn entry_at(cells: &Row, place: usize) -> Option<&Value> {
    cells.items().get(place).and_then(Option::as_ref)
}

/// Appends the times of several dumps.
fn push_pieces(out: &mut String, first: &Dump, others: &[Dump]) -> Result<(), AllocError> {
    let mut pieces = first.ends.len();
    for dump in others {
        pieces = pieces.max(dump.ends.len());
    }
    for place in 0..pieces {
        out.push_str(first.piece(place))?;
        if first.ends.len() <= place {
            write!(out, "#{}\n", place.saturating_sub(1))?;
        }
        for dump in others {
            out.push_str(dump.piece(place))?;
        }
    }
    Ok(())
}

/// The text of the only dump, which is whole.
fn only(alloc: Global, dumps: Vec<Dump>) -> String {
    let mut dumps = dumps;
    match dumps.pop() {
        Some(dump) => dump.text,
        None => String::new(alloc),
    }
}

/// The dump of instances: at time n stand the values of the n-th accepted instant of each, and the events before it.
pub fn vcd(alloc: Global, dumps: Vec<Dump>) -> Result<String, AllocError> {
    let mut out = String::new(alloc);
    match dumps.as_slice() {
        [] => {
            out.push_str(OPENING)?;
            out.push_str(DECLARED)?;
            out.push_str("$end\n")?;
        }
        [_] => return Ok(only(alloc, dumps)),
        [first, others @ ..] => push_pieces(&mut out, first, others)?,
    }
    Ok(out)
}
