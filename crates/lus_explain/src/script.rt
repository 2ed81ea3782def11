//! Scripts to begin from, for a node of a program.

ghost use Rattle.std.specs.Prelude.{◌≡◌, IfErr, IfOk};
ghost use Rattle.lus_reports.specs.CliSpecs.CodeSpecs.Codes.{program_of};
ghost use Rattle.lus_reports.specs.CliSpecs.declared.fault.Fault.TheVariants as faults;
ghost use Rattle.lus_explain.specs.Skeletons.{IsAnswer, IsScriptOf, TriesScript};

use crate::judging::{File, Verdict, refused_program, refused_scripts};
use lus_reports::explain;
use lus_reports::lus_cli::Fault;
use lus_reports::lus_cli::lus_host::{Program, read_scripts};
use lus_skeletons::skeleton;
use std::alloc::Global;

/// Scripts to begin from, or why there are none.
#[derive(Drop)]
pub enum Script {
    Written(String),
    Refused(Verdict),
}

/// Of a program that has no node of this name.
fn unknown_node(alloc: Global, file: &str, node: &str) -> Result<Verdict, Fault>
    ensures status { IfOk result (λ v. v.status ≡ 2) }
    ensures memory { IfErr result (λ f. f ≡ faults.Memory) }
{
    match format!(in alloc; "{file}: error: no node is named `{node}`\n") {
        Ok(text) => Ok(Verdict { text, status: 2 }),
        Err(_) => Err(Fault::Memory),
    }
}

/// A text, if it is scripts of a program.
fn tried(alloc: Global, program: &Program, node: &str, text: String) -> Result<Script, Fault>
    ensures tried { IfOk result (λ s. TriesScript (program_of program.now) s) }
    ensures memory { IfErr result (λ f. f ≡ faults.Memory) }
{
    let file = File {
        name: node,
        bytes: text.as_bytes(),
    };
    match read_scripts(alloc, program, file.bytes) {
        Ok(_) => Ok(Script::Written(text)),
        Err(refusal) => {
            let refused = refused_scripts(alloc, false, program, file, refusal)?;
            Ok(Script::Refused(refused))
        }
    }
}

/// Scripts for a node of an accepted program.
fn script_of(alloc: Global, program: &Program, file: &str, node: &str) -> Result<Script, Fault>
    ensures answer { IfOk result (λ s. IsScriptOf (program_of program.now) node.now s) }
    ensures memory { IfErr result (λ f. f ≡ faults.Memory) }
{
    let Some(place) = program.node(node) else {
        return Ok(Script::Refused(unknown_node(alloc, file, node)?));
    };
    let source = program.source();
    match skeleton(alloc, source, &source.nodes[place.0 as usize]) {
        Ok(text) => tried(alloc, program, node, text),
        Err(_) => Err(Fault::Memory),
    }
}

/// Scripts to begin from, for the node of this name: what `lus` accepts as scripts of the program.
pub fn script_for(alloc: Global, program: File<'_>, node: &str) -> Result<Script, Fault>
    ensures answer { IfOk result (λ s. IsAnswer program.entry.bytes.now node.now s) }
    ensures memory { IfErr result (λ f. f ≡ faults.Memory) }
{
    match explain(alloc, program.bytes) {
        Ok(accepted) => script_of(alloc, &accepted, program.name, node),
        Err(refusal) => Ok(Script::Refused(refused_program(alloc, false, program, refusal)?)),
    }
}
