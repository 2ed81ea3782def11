//! Constants that variables hide.

use crate::kind::Kind;
use crate::warning::warning;
use indexmap::IndexMap;
use lus_diagnostics::Diagnostic;
use lus_faults::Related;
use lus_syntax::{Group, Name, Tree};
use std::alloc::{AllocError, Global};

/// The names of the constants of a source, by their texts.
pub(crate) type Constants<'t> = IndexMap<&'t str, &'t Name>;

/// The constants of a source.
pub(crate) fn constants_of(alloc: Global, tree: &Tree) -> Result<Constants<'_>, AllocError> {
    let mut constants = IndexMap::new(alloc);
    for constant in &tree.constants {
        let name = &constant.name;
        let _before = constants.insert(name.text.as_str(), name)?;
    }
    Ok(constants)
}

/// A variable, and the constant of its name.
#[derive(Clone, Copy)]
pub(crate) struct Hidden<'t> {
    variable: &'t Name,
    constant: &'t Name,
}

/// The constants that the variables of some groups hide.
pub(crate) fn hidden_by<'t>(
    alloc: Global,
    constants: &Constants<'t>,
    groups: &'t [Group],
) -> Result<Vec<Hidden<'t>>, AllocError> {
    let mut found = Vec::new(alloc);
    for group in groups {
        for variable in &group.names {
            if let Some(constant) = constants.get(&variable.text.as_str()).copied() {
                found.push(Hidden { variable, constant })?;
            }
        }
    }
    Ok(found)
}

/// The warning of a constant that a variable hides.
pub(crate) fn hidden_constant(alloc: Global, found: Hidden<'_>) -> Result<Diagnostic, AllocError> {
    let text = found.variable.text.as_str();
    let span = found.variable.span;
    let sentence = format!(in alloc; "in this node `{text}` hides the constant `{text}`")?;
    let note = "Give one of them another name.";
    let mut told = warning(alloc, Kind::HiddenConstant, span, sentence, note)?;
    told.related.push(Related {
        span: found.constant.span,
        label: format!(in alloc; "this is the constant `{text}`")?,
    })?;
    Ok(told)
}
