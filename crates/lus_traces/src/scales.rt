//! How high values stand.

use crate::runs::Run;
use crate::trace::SignalKind;
use lus_values::Value;

/// How far the highest level is from the lowest.
pub(crate) const LEVELS: usize = 260;

/// How values stand: on the levels of the two truth values or of numbers from the least to the most, or in boxes.
#[derive(Clone, Copy)]
pub(crate) enum Scale {
    Truths,
    Numbers { least: i64, most: i64 },
    Boxes,
}

fn number(value: &Value) -> i64 {
    match value {
        Value::Int(number) => *number,
        _ => 0,
    }
}

fn numbers(runs: &[Run<'_>]) -> Scale {
    let mut least = runs.first().map_or(0, |run| number(run.value));
    let mut most = least;
    for run in runs {
        least = least.min(number(run.value));
        most = most.max(number(run.value));
    }
    Scale::Numbers { least, most }
}

pub(crate) fn scale_of(kind: SignalKind, runs: &[Run<'_>]) -> Scale {
    match kind {
        SignalKind::Truth => Scale::Truths,
        SignalKind::Number => numbers(runs),
        SignalKind::Text => Scale::Boxes,
    }
}

/// How high one of `count + 1` levels is, from the lowest on: the last is at the top.
fn level(place: u64, count: u64) -> usize {
    let levels = LEVELS as u128;
    (u128::from(place) * levels / u128::from(count.max(1))).min(levels) as usize
}

/// How high a value stands above the lowest level.
pub(crate) fn height(scale: Scale, value: &Value) -> usize {
    match scale {
        Scale::Truths => level(u64::from(matches!(value, Value::Bool(true))), 1),
        Scale::Numbers { least, most } => {
            level(number(value).abs_diff(least), most.abs_diff(least))
        }
        Scale::Boxes => 0,
    }
}
