//! The scopes of a value change dump: one for each called node that leads to a variable.

use std::alloc::AllocError;

/// Goes from the scope that these names of called nodes lead to on to another.
pub(crate) fn push_way(out: &mut String, from: &[&str], to: &[&str]) -> Result<(), AllocError> {
    let pairs = from.iter().zip(to);
    let common = pairs.take_while(|(name, other)| name == other).count();
    for _ in common..from.len() {
        out.push_str("$upscope $end\n")?;
    }
    for name in to.iter().skip(common) {
        write!(out, "$scope module {name} $end\n")?;
    }
    Ok(())
}
