//! Why requests of lawful journals were refused.

ghost use Rattle.lus_audit.specs.Reasons.{IsTold, TellsJournals};

use lus_hosting::lus_lawful::{Observer, Observers};
use lus_hosting::lus_live_instance::lus_machine::{NodeId, Program};
use lus_printable::printable;
use lus_requests::{Reply, Request};
use lus_values::Memory;
use lus_windows::Reasons;
use std::alloc::Global;

/// The reasons of an instance's refused requests so far.
#[derive(Drop)]
pub(crate) struct Explained {
    reasons: Reasons,
}

impl Observer for Explained {
    ghost seen = { λ e p f h. IsTold p f h e.reasons };

    fn see(
        &mut self,
        alloc: Global,
        program: &Program,
        _node: NodeId,
        request: &Request,
        reply: &Reply,
    ) -> Result<(), Memory> {
        let (source, names) = (program.source(), program.names());
        self.reasons.note(alloc, source, names, request, reply)?;
        Ok(())
    }

    fn pass(&mut self) {
        self.reasons.pass();
    }
}

/// The reasons of the refused requests of lawful journals so far, a line each.
#[derive(Drop)]
pub(crate) struct Explanations {
    pub(crate) text: Vec<u8>,
}

impl Observers for Explanations {
    type Observer = Explained;

    ghost gathered = { λ e p js. TellsJournals p js e.text.items };

    fn begin(
        &mut self,
        alloc: Global,
        program: &Program,
        instance: &str,
        node: NodeId,
        line: u64,
    ) -> Result<Explained, Memory> {
        let shown = printable(alloc, instance.as_bytes())?;
        let reasons = Reasons::new(alloc, program.source(), node.0, shown.as_str(), line)?;
        Ok(Explained { reasons })
    }

    fn end(
        &mut self,
        _alloc: Global,
        _program: &Program,
        _instance: &str,
        _node: NodeId,
        observer: Explained,
        _is_whole: bool,
    ) -> Result<(), Memory> {
        self.text
            .extend_from_slice(observer.reasons.text().as_bytes())?;
        Ok(())
    }
}
