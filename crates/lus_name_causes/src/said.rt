//! What is said of a fault of names, before texts are made of it.

use crate::given::Given;
use crate::repair::{Repair, with_repair};
use lus_faults::{Edit, Finding};
use lus_syntax::{Name, Span};
use std::alloc::{AllocError, Global};

/// What is said of a name: a sentence, what is at a further place, and a note. A `{}` in them stands for the name, but in the note
/// for the one that is meant, which then takes the place of so many bytes from the name on; or another change of the text.
#[derive(Clone, Copy)]
pub struct Said<'t> {
    pub name: &'t Name,
    pub sentence: &'static str,
    pub beside: Option<(Span, &'static str)>,
    pub note: &'static str,
    pub meant: Option<&'t str>,
    pub length: usize,
    pub repair: Option<Repair<'t>>,
}

/// What is said of a name, with no further place.
pub fn told_of<'t>(name: &'t Name, sentence: &'static str, note: &'static str) -> Said<'t> {
    Said {
        name,
        sentence,
        beside: None,
        note,
        meant: None,
        length: name.span.length,
        repair: None,
    }
}

/// A text with a word for each `{}` in it.
fn worded(alloc: Global, text: &str, word: &str) -> Result<String, AllocError> {
    let mut made = String::new(alloc);
    for (place, part) in text.split("{}").enumerate() {
        if place > 0 {
            made.push_str(word)?;
        }
        made.push_str(part)?;
    }
    Ok(made)
}

/// Adds the texts behind a sentence.
fn complete(
    alloc: Global,
    finding: &mut Finding,
    text: &str,
    said: &Said<'_>,
) -> Result<(), AllocError> {
    if let Some((span, label)) = said.beside {
        finding.relate(span, worded(alloc, label, text)?)?;
    }
    finding.note = Some(worded(alloc, said.note, said.meant.unwrap_or(text))?);
    if let Some(meant) = said.meant {
        finding.edit = Some(Edit {
            byte: said.name.span.start.byte,
            length: said.length,
            text: String::from_str(alloc, meant)?,
        });
    }
    Ok(())
}

/// The texts of what is said.
pub fn finding_of<'t>(given: Given<'t>, said: &Said<'t>) -> Result<Finding, AllocError> {
    let alloc = given.alloc;
    let text = said.name.text.as_str();
    let sentence = worded(alloc, said.sentence, text)?;
    let mut finding = Finding::new(alloc, sentence, said.length);
    complete(alloc, &mut finding, text, said)?;
    match said.repair {
        Some(repair) => with_repair(given, finding, said.name, repair),
        None => Ok(finding),
    }
}
