//! The names of scripts: none stands twice, and those that are used are known.

ghost use Rattle.std.specs.Prelude.{◌≡◌, ◌⊎◌, ◌∷◌, ◌++◌, [], IfErr, IfOk, OnOk, Err, Some, None, map, string_bytes, option_map, true, false, Result};
ghost use Rattle.lus_scripts.specs.Scripts.{all_distinct, caller_names, instance_names, place_of, stands_in};
ghost use Rattle.lus_scripts.specs.View.{form_seen};

use crate::form::Form;
use crate::refusal::ScriptRefusal;
use indexmap::IndexSet;
use std::alloc::{AllocError, Global};

/// Adds a new name at the end, or refuses one that stands there.
fn declare(alloc: Global, table: &mut IndexSet<String>, name: &str) -> Result<(), ScriptRefusal>
    ensures fresh { OnOk result (stands_in (map string_bytes table.old.keys) name.now ≡ false) }
    ensures last { OnOk result (map string_bytes table.new.keys ≡ map string_bytes table.old.keys ++ name.now ∷ []) }
    ensures double { result ≡ Err ScriptRefusal.Double → stands_in (map string_bytes table.old.keys) name.now ≡ true }
    ensures errors { IfErr result (λ e. (e ≡ ScriptRefusal.Double) ⊎ (e ≡ ScriptRefusal.Memory)) }
{
    let (_, is_new) = table.insert_full(String::from_str(alloc, name)?)?;
    if is_new {
        Ok(())
    } else {
        Err(ScriptRefusal::Double)
    }
}

/// The names, each with its place. None stands twice.
pub(crate) fn name_table(alloc: Global, names: &[&str]) -> Result<IndexSet<String>, ScriptRefusal>
    ensures names { IfOk result (λ t. map string_bytes t.keys ≡ map (λ n. n.now) names.now) }
    ensures distinct { OnOk result (all_distinct (map (λ n. n.now) names.now) ≡ true) }
    ensures double { result ≡ Err ScriptRefusal.Double → all_distinct (map (λ n. n.now) names.now) ≡ false }
    ensures errors { IfErr result (λ e. (e ≡ ScriptRefusal.Double) ⊎ (e ≡ ScriptRefusal.Memory)) }
{
    let mut table = IndexSet::new(alloc);
    for name in names {
        declare(alloc, &mut table, *name)?;
    }
    Ok(table)
}

/// The place of a name in a table.
pub(crate) fn place_of(table: &IndexSet<String>, name: &str) -> Option<usize>
    ensures { result ≡ place_of (map string_bytes table.now.keys) name.now }
{
    table.get_index_of(name)
}

pub(crate) fn instance_names<'v>(alloc: Global, form: &Form<'v>) -> Result<Vec<&'v str>, AllocError>
    ensures { IfOk result (λ v. map (λ n. n.now) v.items ≡ instance_names (form_seen form.now)) }
{
    let mut names = Vec::new(alloc);
    for instance in &form.instances {
        names.push(instance.name)?;
    }
    Ok(names)
}

pub(crate) fn caller_names<'v>(alloc: Global, form: &Form<'v>) -> Result<Vec<&'v str>, AllocError>
    ensures { IfOk result (λ v. map (λ n. n.now) v.items ≡ caller_names (form_seen form.now)) }
{
    let mut names = Vec::new(alloc);
    for caller in &form.callers {
        names.push(caller.name)?;
    }
    Ok(names)
}

/// Equal texts of their own.
pub(crate) fn copy_names(alloc: Global, names: &[&str]) -> Result<Vec<String>, AllocError>
    ensures { IfOk result (λ v. map string_bytes v.items ≡ map (λ n. n.now) names.now) }
{
    let mut copies = Vec::new(alloc);
    for name in names {
        copies.push(String::from_str(alloc, *name)?)?;
    }
    Ok(copies)
}
